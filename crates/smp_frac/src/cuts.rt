ghost use Rattle.std.specs.Prelude.{◌≡◌, option_map};
ghost use Rattle.smp_frac.specs.Cuts.{cut_at};

/// The bytes before the first separator and the bytes after it, or `None` where there is no separator.
pub fn cut_before<'a>(text: &'a [u8], separator: u8) -> Option<(&'a [u8], &'a [u8])>
    ensures { option_map (λ p. (p.0.now, p.1.now)) result ≡ cut_at separator text.now }
{
    for i in 0..text.len() {
        if text[i] == separator {
            return Some((&text[..i], &text[i + 1..]));
        }
    }
    None
}
