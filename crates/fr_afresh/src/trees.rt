//! What forms read from kept trees.
ghost use Rattle.std.specs.Prelude.{◌≡◌};
ghost use Rattle.fr_core.specs.declared.kept.Kept.{out-Kept};
ghost use Rattle.fr_meaning.specs.Cells.{child, cell_in, behind, same_key, under_key};
ghost use Rattle.fr_forms.specs.Lent.{earlier, kind_of};
ghost use Rattle.fr_afresh.specs.Trees.{shape_of, tree};

use fr_core::{Kept, Key};
use fr_forms::{CellKind, LentCell};
use fr_value::Value;

/// A kept tree, opened by one level.
#[derive(Clone, Copy)]
pub enum Opened<'a> {
    Nothing,
    Group(&'a [Kept]),
    Datum(&'a Value, &'a Kept),
    Payload(&'a Option<Value>, &'a Kept),
    Switch(&'a Key, &'a Kept),
}

fn open_one(kept: &Kept) -> Opened<'_>
    ensures { shape_of result ≡ out-Kept kept.now }
{
    match kept {
        Kept::Nothing => Opened::Nothing,
        Kept::Group(kepts) => Opened::Group(kepts.as_slice()),
        Kept::Datum(value, inner) => Opened::Datum(value, inner.get()),
        Kept::Payload(payload, inner) => Opened::Payload(payload, inner.get()),
        Kept::Switch(key, inner) => Opened::Switch(key, inner.get()),
    }
}

fn open_tree(kept: Option<&Kept>) -> Opened<'_>
    ensures { shape_of result ≡ out-Kept (tree kept.entry) }
{
    match kept {
        None => Opened::Nothing,
        Some(kept) => open_one(kept),
    }
}

/// What a part kept.
#[tactic(auto, unfolding(fr_meaning::specs::Cells::child))]
pub fn kept_part(kept: Option<&Kept>, part: usize) -> Option<&Kept>
    ensures { tree result ≡ child (tree kept.entry) part }
{
    match open_tree(kept) {
        Opened::Group(kepts) => kepts.get(part),
        _ => None,
    }
}

/// What a form reads from a kept tree.
#[derive(Clone, Copy)]
pub struct FormKept<'a> {
    /// What its cell holds.
    pub cell: Option<LentCell<'a>>,
    /// What its parts kept.
    pub parts: Option<&'a Kept>,
}

/// What a form with a cell of this kind reads.
#[tactic(auto, unfolding(fr_meaning::specs::Cells::datum_cell, fr_meaning::specs::Cells::behind_datum, fr_meaning::specs::Cells::payload_cell, fr_meaning::specs::Cells::behind_payload))]
pub fn form_kept(kind: CellKind, kept: Option<&Kept>) -> FormKept<'_>
    ensures cell { earlier result.cell ≡ cell_in (kind_of kind) (tree kept.entry) }
    ensures parts { tree result.parts ≡ behind (kind_of kind) (tree kept.entry) }
{
    let (cell, parts) = match (kind, open_tree(kept)) {
        (CellKind::KeepsNone, _) => (None, kept),
        (CellKind::KeepsDatum, Opened::Datum(value, inner)) => (
            Some(LentCell::Datum(value)),
            Some(inner),
        ),
        (CellKind::KeepsPayload, Opened::Payload(payload, inner)) => (
            Some(LentCell::Payload(payload.as_ref())),
            Some(inner),
        ),
        _ => (None, None),
    };
    FormKept { cell, parts }
}

/// What the choice of a switch kept, where the switch chose by the same key before.
#[tactic(auto, unfolding(fr_meaning::specs::Cells::under_key))]
pub fn kept_under<'a>(kept: Option<&'a Kept>, key: &Key) -> Option<&'a Kept>
    ensures { tree result ≡ under_key key.now (tree kept.entry) }
{
    match open_tree(kept) {
        Opened::Switch(old, inner) => {
            if is_same_key(old, key) {
                Some(inner)
            } else {
                None
            }
        }
        _ => None,
    }
}

fn is_same_key(old: &Key, new: &Key) -> bool
    ensures { result ≡ same_key old.now new.now }
{
    match (old, new) {
        (Key::Test(held), Key::Test(holds)) => held == holds,
    }
}
