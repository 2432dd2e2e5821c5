//! What a call meets outside of it, as the words in front of a command say.

/// How many bytes a report may have.
const ROOM: usize = 4_194_304;

/// What a call of the product meets outside of it.
#[derive(Drop)]
pub struct Outside {
    /// The number of the fetch that fails, from 1.
    pub fetch: Option<u64>,
    /// The number of the put that fails, from 1.
    pub put: Option<u64>,
    /// How many bytes a put takes.
    pub step: usize,
    /// How many bytes the output has room for.
    pub room: usize,
    /// How many bytes there are of the file `p`.
    pub cut: usize,
    /// How many statements and entailments a judge in memory says that each thread has, where there is such a judge.
    pub says: Option<(u32, u32)>,
    /// The place of the threads that this judge refuses.
    pub refuses: Option<u32>,
}

impl Outside {
    /// Nothing fails, and nothing is cut.
    pub fn ordinary() -> Outside {
        Outside {
            fetch: None,
            put: None,
            step: ROOM,
            room: ROOM,
            cut: usize::MAX,
            says: None,
            refuses: None,
        }
    }

    /// Reads a word such as `put=3`. The answer is whether it is one.
    pub fn reads(&mut self, word: &str) -> bool {
        let Some((key, number)) = word.split_once('=') else {
            return false;
        };
        let Ok(number) = number.parse::<u32>() else {
            return false;
        };
        match key {
            "fetch" => self.fetch = Some(number as u64),
            "put" => self.put = Some(number as u64),
            "step" => self.step = number as usize,
            "room" => self.room = number as usize,
            "cut" => self.cut = number as usize,
            "statements" => self.says = Some((number, 0)),
            "entailments" => self.says = Some((self.says.unwrap_or((0, 0)).0, number)),
            "refuses" => self.refuses = Some(number),
            _ => return false,
        }
        true
    }
}

/// What there is of bytes that are cut behind so many.
pub fn cut_at(bytes: &[u8], cut: usize) -> &[u8] {
    if cut < bytes.len() {
        &bytes[..cut]
    } else {
        bytes
    }
}
