// A text is cut at a mark, such as a line feed or a space.
ghost use Rattle.std.specs.Prelude.{◌≡◌, ◌==◌, position};
ghost use Rattle.std.specs.List.{before_first};
ghost use Rattle.std.specs.Option.{option_copied};
ghost use Rattle.texts.specs.Split.{after_mark};

// Where the first `mark` stands. By itself, so that its loop has the registers to itself.
#[inline(never)]
fn find(text: &[u8], mark: u8) -> Option<usize>
    ensures { result ≡ position (λ b. b == mark) text.now }
{
    text.iter().position(|b| *b == mark)
}

// What stands before the first `mark`, and what stands after it, where there is one.
pub(crate) fn split_once(text: &[u8], mark: u8) -> (&[u8], Option<&[u8]>)
    ensures part { result.0.now ≡ before_first (λ b. b == mark) text.now }
    ensures rest { option_copied result.1 ≡ after_mark mark text.now }
{
    match find(text, mark) {
        Some(n) => (&text[..n], Some(&text[n + 1..])),
        None => (text, None),
    }
}
