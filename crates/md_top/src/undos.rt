//! What the undos that are left of a script can reach.
ghost use Rattle.std.specs.Prelude.{◌≡◌, ◌-◌, ◌<◌, ◌==◌, true, [], if◌then◌else◌};
ghost use Rattle.md_script.specs.Items.{is_undo};

use md_script::{HistoryOf, Item};

/// Forgets the items of a history where none of the undos that are left can reach them: where there
/// is none.
pub fn forget_unreached<const W: usize>(history: &mut HistoryOf<W>, undos: u64)
    ensures { history.new.items ≡ (if undos == 0 then [] else history.old.items) }
{
    if undos == 0 {
        history.forget();
    }
}

/// How many undos are left behind an item. Condition: `undos` are left, it and those behind it.
pub fn undos_behind(undos: u64, item: &Item) -> u64
    requires { is_undo item.now ≡ true → 0 < undos }
    ensures { result ≡ (if is_undo item.now then undos - 1 else undos) }
{
    match item {
        Item::Undo => undos - 1,
        _ => undos,
    }
}
