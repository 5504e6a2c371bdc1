// What every writing call begins with: its refusals 2, 17, 4, 18 and 5, and the repair; and whether a map has a key.
#![tactic(auto)]

ghost use Rattle.std.specs.Prelude.{◌≡◌, true, false};
ghost use Rattle.std.proofs.Math.Option.{some};
ghost use Rattle.model.specs.Table.{header_ok, no_collection};
ghost use Rattle.model.specs.Slots.{view_from};
ghost use Rattle.model.specs.Reached.{mapping};
ghost use Rattle.model.specs.SoundTest.{leftover_all, sound_view, sound};
ghost use Rattle.model.specs.Writes.{repair_stores};
ghost use Rattle.model.specs.Refusals.{has_key, words_for};
ghost use Rattle.sound.specs.Checked.{meant};
ghost use Rattle.orders.specs.Desk.{of, Room, Makes};
ghost use Rattle.write.specs.Judged.{judged};

use model::Refusal;
use orders::{Dock, Writer};
use sound::{Leftover, Sound};

// What the tests that all writing calls share answer: what repair has to do and how many nodes are reached, or a refusal.
pub type Judged = Result<Sound, Refusal>;

// The words that an order list for the dock must have.
pub fn words_for(dock: u64) -> usize
    ensures { result ≡ words_for dock }
{
    match Dock::from(dock) {
        Dock::Ordered => 2560,
        Dock::Unordered => 5120,
    }
}

// Refusals 4, 18 and 5, on a table whose header is right, with an order list of so many words for a dock.
fn judge_rest(table: &[u64], words: usize, dock: u64) -> Judged
    requires { header_ok table.now ≡ true }
    ensures { result ≡ judged false words dock table.now }
{
    let sound = sound::check(table).ok_or(Refusal::NotSound)?;
    // A number that is no dock is refused here; `Dock::from` is total, as the definitions' dock_of and barred are.
    if 1 < dock {
        return Err(Refusal::NoDock);
    }
    if words < words_for(dock) {
        return Err(Refusal::ShortList);
    }
    Ok(sound)
}

// The tests that all writing calls share, for a call that names a collection.
pub fn judge(table: &[u64], collection: u64, words: usize, dock: u64) -> Judged
    ensures { result ≡ judged (no_collection collection table.now) words dock table.now }
{
    node::find_root(table, collection)?;
    judge_rest(table, words, dock)
}

// For a call that names none.
pub fn judge_any(table: &[u64], words: usize, dock: u64) -> Judged
    ensures { result ≡ judged false words dock table.now }
{
    node::header(table)?;
    judge_rest(table, words, dock)
}

// Whether the map of the tree under a root has the key: its leaf alone is looked at, and no next key.
pub fn has_key(table: &[u64], root: u64, key: u64) -> bool
    requires { sound_view (view_from table.now root) ≡ true }
    ensures { result ≡ has_key key (mapping (view_from table.now root)) }
{
    let leaf = reach::standing(table, root, 0, key);
    let x = node::read(table, leaf);
    slots::find(x.slots, x.left, key).is_some()
}

// Repairs a sound table.
pub fn mend(writer: &mut Writer<'_>, left: Leftover)
    requires table_value { sound writer.old.table.now ≡ true }
    requires table_value_2 { leftover_all writer.old.table.now ≡ some (meant left) }
    requires room { Room (repair_stores writer.old.table.now) (of writer.old) }
    ensures { Makes (repair_stores writer.old.table.now) writer.old writer.new }
{
    match left {
        Leftover::Nothing => {}
        Leftover::HiddenIn(x) => shift::close(writer, x),
        Leftover::MissingIn {
            parent,
            node,
            trailing,
        } => {
            if trailing {
                shift::cut_attach(writer, parent, node);
            } else {
                shift::attach(writer, parent, node);
            }
        }
        Leftover::BothIn { parent, node } => {
            shift::close(writer, parent);
            shift::attach(writer, parent, node);
        }
    }
}
