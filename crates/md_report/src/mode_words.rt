//! The words of modes and of classes, in commands and in the heads of reports.
ghost use Rattle.std.specs.Prelude.{◌≡◌};
ghost use Rattle.md_report.specs.Lines.{mode_word, mode_of_word, class_word, class_of_word};

use crate::Mode;
use md_bar_tree::Class;

/// The word of a mode.
pub fn mode_word(mode: Mode) -> &'static str
    ensures value { result.now ≡ mode_word mode }
{
    match mode {
        Mode::Tree => "tree",
        Mode::Edit => "edit",
        Mode::Cograph => "cograph",
        Mode::Compare => "compare",
        Mode::Permute => "permute",
        Mode::Quiet => "quiet",
    }
}

/// The mode with this word; none for any other word.
pub fn mode_of_word(word: &[u8]) -> Option<Mode>
    ensures value { result ≡ mode_of_word word.now }
{
    let modes = [
        Mode::Tree,
        Mode::Edit,
        Mode::Cograph,
        Mode::Compare,
        Mode::Permute,
        Mode::Quiet,
    ];
    modes
        .iter()
        .copied()
        .find(|mode| word == mode_word(*mode).as_bytes())
}

/// The word of a class of graphs.
pub fn class_word(class: Class) -> &'static str
    ensures value { result.now ≡ class_word class }
{
    match class {
        Class::Trivial => "trivial",
        Class::Threshold => "threshold",
    }
}

/// The class of graphs with this word; none for any other word.
pub fn class_of_word(word: &[u8]) -> Option<Class>
    ensures value { result ≡ class_of_word word.now }
{
    let classes = [Class::Trivial, Class::Threshold];
    classes
        .iter()
        .copied()
        .find(|class| word == class_word(*class).as_bytes())
}
