// The form of an item: its map byte against its kind byte. This is the only code that compares a map with a kind; whoever reads an item asks here.
#![tactic(auto)]

ghost use Rattle.std.specs.Prelude.{◌≡◌};
ghost use Rattle.model.specs.Choice.{lookup, member};
ghost use Rattle.model.specs.Formats.{item_maps};
ghost use Rattle.model.specs.ItemForms.{item_form};
ghost use Rattle.model.specs.ItemKinds.{item_kinds};

use model::{FormFault, ItemForm, Kind};

// The kind comes first: of an unknown one no map is right or wrong.
#[tactic(auto, unfolding(model::specs::ItemForms::item_form_in, model::specs::ItemForms::form_of))]
pub fn item_form(map: u16, kind: u16) -> ItemForm
    ensures { result ≡ item_form map kind }
{
    let kind = kind_of(kind).ok_or(FormFault::UnknownKind)?;
    if has_map(kind, map) {
        Ok(kind)
    } else {
        Err(FormFault::WrongMap)
    }
}

// The kind under a number of document 01's table.
#[tactic(auto, unfolding(model::specs::Choice::lookup, model::specs::ItemKinds::item_kinds))]
fn kind_of(number: u16) -> Option<Kind>
    ensures { result ≡ lookup number item_kinds }
{
    match number {
        1 => Some(Kind::Load),
        2 => Some(Kind::Store),
        3 => Some(Kind::Assign),
        4 => Some(Kind::Assume),
        5 => Some(Kind::Read),
        6 => Some(Kind::Write),
        7 => Some(Kind::Popa),
        8 => Some(Kind::Popb),
        9 => Some(Kind::Bar),
        _ => None,
    }
}

// Whether a map is among its kind's. A case for each kind, with its maps written out.
#[tactic(auto, unfolding(model::specs::Choice::member, model::specs::Formats::item_maps))]
fn has_map(kind: Kind, map: u16) -> bool
    ensures { result ≡ member map (item_maps kind) }
{
    match kind {
        Kind::Load => matches!(map, 27 | 59 | 155 | 187),
        Kind::Store => matches!(map, 27 | 59 | 155 | 187),
        Kind::Assign => matches!(map, 3 | 131),
        Kind::Assume => matches!(map, 3 | 131),
        Kind::Read => matches!(map, 3 | 131),
        Kind::Write => matches!(map, 3 | 131),
        Kind::Popa => matches!(map, 29 | 61 | 93 | 125),
        Kind::Popb => matches!(map, 29 | 61 | 93 | 125),
        Kind::Bar => matches!(map, 3 | 131),
    }
}
