//! The text of the program of a number of rounds.

ghost use Rattle.std.specs.Prelude.{◌≡◌, ◌≤◌, ◌<◌, ◌++◌, OnOk, IfOk, length};
ghost use Rattle.cov_expr.specs.declared.limits.TheConstants.{MOST_ROUNDS};
ghost use Rattle.cov_gen.specs.Big as spec;

use cov_expr::{List, NoMemory};
use std::alloc::Global;

/// The name of the variable that is secret. Two runs whose starts differ in it alone are to look alike.
pub const SECRET: &[u8] = b"k";

const DECLARATIONS: &[u8] = b"var m: low;
var b: low when m == 0;
var k: high;
var x: high;
var o: low;
lock l hide m, b;
";

const WRITER: &[u8] = b"thread w guarantee hide x {\n";

const WRITER_ROUND: &[u8] = b"  lock l;
  b := k;
  m := 1;
  unlock l by { 1: have [1 == 0] (rev 1 [_ == 0] (hyp 2)) (clash 3) };
  lock l;
  b := 0;
  m := 0;
  unlock l;
";

const READER: &[u8] = b"thread r assume hide x {\n";

const READER_ROUND: &[u8] = b"  lock l;
  if m == 0 {
    x := b as 1;
  } else {
    x := 0;
  } join { ; b: m == 0, x: 1 }
  unlock l;
  o := x;
";

const END: &[u8] = b"}\n";

/// The text of the program of so many rounds, 1 to `MOST_ROUNDS` of `cov_expr`: two threads, with 14 statements a round. It takes memory once, of just
/// as many bytes as the text has, and time in proportion.
#[tactic(auto, unfolding(crate::specs::Big::big))]
pub fn big(alloc: Global, rounds: u32) -> Result<List<u8>, NoMemory>
    requires least { 1 ≤ rounds }
    requires most { rounds ≤ MOST_ROUNDS }
    ensures text { IfOk result (λ text. text ≡ spec.big rounds) }
    ensures short { IfOk result (λ text. length text < 100000) }
{
    let mut out = List::with_capacity(alloc, size(rounds))?;
    out.extend_from_slice(DECLARATIONS)?;
    add_thread(WRITER, WRITER_ROUND, rounds, &mut out)?;
    add_thread(READER, READER_ROUND, rounds, &mut out)?;
    Ok(out)
}

/// How many bytes the program of a number of rounds has.
fn size(rounds: u32) -> usize
    requires { rounds ≤ MOST_ROUNDS }
    ensures whole { result ≡ length (spec.big rounds) }
    ensures short { result < 100000 }
{
    let heads = DECLARATIONS.len() + WRITER.len() + READER.len() + 2 * END.len();
    heads + rounds as usize * (WRITER_ROUND.len() + READER_ROUND.len())
}

/// Adds a thread that does the same in each round.
fn add_thread(head: &[u8], round: &[u8], rounds: u32, out: &mut List<u8>) -> Result<(), NoMemory>
    ensures { OnOk result (out.new ≡ out.old ++ spec.thread head.now round.now rounds) }
{
    out.extend_from_slice(head)?;
    for _ in 0..rounds {
        out.extend_from_slice(round)?;
    }
    out.extend_from_slice(END)
}
