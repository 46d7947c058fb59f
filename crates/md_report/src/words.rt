//! The words with which lines begin.
ghost use Rattle.std.specs.Prelude.{◌≡◌, ◌≢◌, MatchOption};
ghost use Rattle.md_report.specs.declared.words.Word.{Word};
ghost use Rattle.md_report.specs.declared.words.Refusal.{Refusal};
ghost use Rattle.md_report.specs.Words.{word_text, refusal_text};

// The first word of a line.
#[derive(Clone, Copy)]
pub(crate) enum Word {
    // `mdt`
    Head,
    // `t`
    Tree,
    // `ok`
    Applied,
    // `p4`
    Path,
    // `yes`
    Yes,
    // `no`
    No,
    // `end`
    End,
}

// The second word of a line behind `no`, where it is no arc.
#[derive(Clone, Copy)]
pub(crate) enum Refusal {
    // `same`
    Same,
    // `vertex`
    Vertex,
    // `taken`
    Taken,
    // `edge-there`
    There,
    // `edge-absent`
    Absent,
    // `p4`
    Path,
    // `g`
    Graph,
    // `c`
    Complement,
    // `edit`
    Edit,
    // `undo`
    Undo,
}

// The word that a piece is, if it is one of those with which lines begin.
pub(crate) fn first_word(piece: &[u8]) -> Option<Word>
    ensures { MatchOption result ((w : Word) → piece.now ≢ word_text w)
        (λ w. piece.now ≡ word_text w) }
{
    if piece == b"mdt".as_slice() {
        return Some(Word::Head);
    }
    if piece == b"t".as_slice() {
        return Some(Word::Tree);
    }
    if piece == b"ok".as_slice() {
        return Some(Word::Applied);
    }
    if piece == b"p4".as_slice() {
        return Some(Word::Path);
    }
    if piece == b"yes".as_slice() {
        return Some(Word::Yes);
    }
    if piece == b"no".as_slice() {
        return Some(Word::No);
    }
    if piece == b"end".as_slice() {
        return Some(Word::End);
    }
    None
}

// The word that a piece is, if it is one of those behind `no`.
pub(crate) fn refusal_word(piece: &[u8]) -> Option<Refusal>
    ensures { MatchOption result ((w : Refusal) → piece.now ≢ refusal_text w)
        (λ w. piece.now ≡ refusal_text w) }
{
    if piece == b"same".as_slice() {
        return Some(Refusal::Same);
    }
    if piece == b"vertex".as_slice() {
        return Some(Refusal::Vertex);
    }
    if piece == b"taken".as_slice() {
        return Some(Refusal::Taken);
    }
    if piece == b"edge-there".as_slice() {
        return Some(Refusal::There);
    }
    if piece == b"edge-absent".as_slice() {
        return Some(Refusal::Absent);
    }
    if piece == b"p4".as_slice() {
        return Some(Refusal::Path);
    }
    if piece == b"g".as_slice() {
        return Some(Refusal::Graph);
    }
    if piece == b"c".as_slice() {
        return Some(Refusal::Complement);
    }
    if piece == b"edit".as_slice() {
        return Some(Refusal::Edit);
    }
    if piece == b"undo".as_slice() {
        return Some(Refusal::Undo);
    }
    None
}
