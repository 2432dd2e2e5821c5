//! A law of excerpts: a function with no body.

ghost use Rattle.std.specs.Prelude.{◌≡◌};
ghost use Rattle.text_parts.specs.declared.excerpt.TheConstants.{MOST_BEFORE, MOST_SHOWN};

/// Of a line at most 120 bytes are shown, and of these at most 80 in front of the place.
pub fn excerpts_have_their_lengths()
    ensures shown { MOST_SHOWN ≡ 120 }
    ensures before { MOST_BEFORE ≡ 80 }
{}
