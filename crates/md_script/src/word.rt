//! The words of a script.
ghost use Rattle.std.specs.Prelude.{◌≡◌};
ghost use Rattle.md_script.specs.Line.{word_of};

// The first field of a line that isn't skipped.
#[derive(Clone, Copy)]
pub(crate) enum LineWord {
    // The word of an edit.
    Edit(EditWord),
    // `undo`
    Undo,
    // `begin`
    Begin,
    // `commit`
    Commit,
}

// The first field of an edit's line.
#[derive(Clone, Copy)]
pub(crate) enum EditWord {
    // `+e`
    PlusEdge,
    // `-e`
    MinusEdge,
    // `+v`
    PlusVertex,
    // `-v`
    MinusVertex,
}

// The word that a field is, if it is one of the seven.
#[tactic(auto, unfolding(crate::specs::Line::word_of))]
pub(crate) fn line_word(field: &[u8]) -> Option<LineWord>
    ensures { result ≡ word_of field.now }
{
    match field {
        [b'+', b'e'] => Some(LineWord::Edit(EditWord::PlusEdge)),
        [b'-', b'e'] => Some(LineWord::Edit(EditWord::MinusEdge)),
        [b'+', b'v'] => Some(LineWord::Edit(EditWord::PlusVertex)),
        [b'-', b'v'] => Some(LineWord::Edit(EditWord::MinusVertex)),
        _ if field == b"undo".as_slice() => Some(LineWord::Undo),
        _ if field == b"begin".as_slice() => Some(LineWord::Begin),
        _ if field == b"commit".as_slice() => Some(LineWord::Commit),
        _ => None,
    }
}
