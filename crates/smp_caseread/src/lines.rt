//! The lines of a case.

ghost use Rattle.std.specs.Prelude.{◌≡◌, ◌++◌, IfSome, IsNone, codes};
ghost use Rattle.smp_caseread.specs.Lines.{IsWritten, IsNoLine};

/// A line of a case, with the text in which it goes on, still in escapes.
#[derive(Clone, Copy)]
pub enum Line<'a> {
    /// An empty line, or a comment.
    Remark,
    /// A piece of the content of the part above it.
    Content(&'a str),
    /// The words of the command line, with one blank between two. `None` where there is no word at all.
    Words(Option<&'a str>),
    /// The name of a file that is there before the call.
    File(&'a str),
    /// The number of a call of the store that fails.
    FailingCall(&'a str),
    /// The number of a put that fails.
    FailingPut(&'a str),
    /// The wanted exit code.
    WantedCode(&'a str),
    /// The name of a wanted file.
    WantedFile(&'a str),
    /// The name under which there is to be no file.
    WantedNoFile(&'a str),
    /// What is to be put.
    WantedPut,
}

impl<'a> Line<'a> {
    /// The line that a text is, or `None` where it begins as no line of a case does.
    pub fn of_text(text: &'a str) -> Option<Line<'a>>
        ensures some { IfSome result (λ line. IsWritten line text.now) }
        ensures none { IsNone result → IsNoLine text.now }
    {
        if text.is_empty() || text.starts_with('#') {
            Some(Line::Remark)
        } else if let Some(content) = text.strip_prefix("|") {
            Some(Line::Content(content))
        } else if let Some(wanted) = text.strip_prefix("wanted ") {
            Line::of_wanted(wanted)
        } else if text == "words" {
            Some(Line::Words(None))
        } else if let Some(words) = text.strip_prefix("words ") {
            Some(Line::Words(Some(words)))
        } else if let Some(name) = text.strip_prefix("file ") {
            Some(Line::File(name))
        } else if let Some(number) = text.strip_prefix("failing call ") {
            Some(Line::FailingCall(number))
        } else {
            text.strip_prefix("failing put ").map(Line::FailingPut)
        }
    }

    // What follows the word `wanted`.
    fn of_wanted(text: &'a str) -> Option<Line<'a>>
        ensures some { IfSome result (λ line. IsWritten line (codes "wanted " ++ text.now)) }
        ensures none { IsNone result → IsNoLine (codes "wanted " ++ text.now) }
    {
        if text == "put" {
            Some(Line::WantedPut)
        } else if let Some(number) = text.strip_prefix("code ") {
            Some(Line::WantedCode(number))
        } else if let Some(name) = text.strip_prefix("file ") {
            Some(Line::WantedFile(name))
        } else {
            text.strip_prefix("no file ").map(Line::WantedNoFile)
        }
    }
}
