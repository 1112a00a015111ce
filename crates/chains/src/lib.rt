// Lists by key through one array of links, the newest member first. Members and heads are named by their number plus 1, and 0 names none; so cleared
// arrays are empty lists. Members are put in rising, so that links fall.
#![tactic(auto)]

ghost use Rattle.std.specs.Prelude.{◌≡◌};
ghost use Rattle.chains.specs.Chains.{Pushed, older_in, slot_of};

// The place of a member's link. The name 0 has none.
fn slot(member: u16) -> Option<usize>
    ensures { result ≡ slot_of member }
{
    member.checked_sub(1).map(usize::from)
}

// Puts a member before the others of its key's list. Where the arrays have no room for the key or the member nothing changes.
pub fn push(heads: &mut [u16], links: &mut [u16], key: usize, member: u16)
    ensures { Pushed heads.old links.old heads.new links.new key member }
{
    let Some(slot) = slot(member) else {
        return;
    };
    if key < heads.len() && slot < links.len() {
        links[slot] = heads[key];
        heads[key] = member;
    }
}

// The member below one in its list, 0 at the end. A link that does not fall ends its list.
pub fn older(links: &[u16], member: u16) -> u16
    ensures { result ≡ older_in links.now member }
{
    let Some(slot) = slot(member) else {
        return 0;
    };
    match links.get(slot) {
        Some(&below) if below < member => below,
        _ => 0,
    }
}
