// Cuts a script into lines and words, which borrow it.
//
// A line ends in a line feed, and a last line that is not empty counts without one. Words are parted by single blanks,
// so a second blank in a row, or one at the end, makes an empty word.
ghost use Rattle.std.specs.Prelude.{◌≡◌, ◌<◌, [], ◌∷◌, length};
ghost use Rattle.std.specs.Option.{option_map, unwrap_or};
ghost use Rattle.script.specs.Words.{front, behind, lines_of};

// The text before the first byte `at`, and what stands behind that byte, if there is one.
pub fn cut(text: &[u8], at: u8) -> (&[u8], Option<&[u8]>)
    ensures front { result.0.now ≡ front at text.now }
    ensures back { option_map (λ x. x.now) result.1 ≡ behind at text.now }
{
    match text.iter().position(|b| *b == at) {
        Some(i) => (&text[..i], Some(&text[i + 1..])),
        None => (text, None),
    }
}

// The first line of a text and what is left behind it. Nothing is left behind a line that lacks its line feed.
pub fn next_line(text: &[u8]) -> (&[u8], &[u8])
    ensures line { result.0.now ≡ front 10 text.now }
    ensures rest { result.1.now ≡ unwrap_or (behind 10 text.now) [] }
    ensures lines { 0 < length text.now → lines_of text.now ≡ result.0.now ∷ lines_of result.1.now }
    ensures shorter { 0 < length text.now → length result.1.now < length text.now }
{
    let (line, rest) = cut(text, b'\n');
    (line, rest.unwrap_or(&[]))
}
