//! The rows of owners and of items.
ghost use Rattle.std.specs.Prelude.{◌≡◌, ◌≢◌, ℕ, ◌<◌, ◌≤◌, cond, nat_eq, length, None, IsSome};
ghost use Rattle.arena_rows.specs.owner_chains.Chains.{head_at, link_at, follower, leading_on, leading_back, linked_in, linked_out, gained, lost};

use raw_cells::Rows;

/// What an owner has.
#[derive(Clone, Copy)]
pub struct Head {
    /// How many items there are.
    pub count: u32,
    /// The least item, or 0.
    pub first: u32,
    /// An item from which places are looked for, or 0.
    pub finger: u32,
}

/// An item in its owner's chain.
#[derive(Clone, Copy)]
pub struct Link {
    /// The owner's number.
    pub owner: u32,
    /// The item of the owner before this one, or 0.
    pub previous: u32,
    /// The item of the owner after this one, or 0.
    pub next: u32,
}

/// What an owner has, or nothing if it has never had an item.
pub(crate) fn head_of(heads: &Rows<Head>, owner: u32) -> Head
    ensures { result ≡ head_at heads.now owner }
{
    match heads.find(owner) {
        Some(head) => head,
        None => Head {
            count: 0,
            first: 0,
            finger: 0,
        },
    }
}

/// What an owner that has an item has.
fn known_head(heads: &Rows<Head>, owner: u32) -> Head
    requires { 1 ≤ (head_at heads.now owner).count }
    ensures { result ≡ head_at heads.now owner }
{
    heads.known(owner)
}

/// The item that follows this one in an owner's chain, or 0. The first item follows 0.
pub(crate) fn follower(heads: &Rows<Head>, links: &Rows<Link>, owner: u32, item: u32) -> u32
    ensures { result ≡ follower heads.now links.now owner item }
{
    if item == 0 {
        return head_of(heads, owner).first;
    }
    match links.find(item) {
        Some(link) => link.next,
        None => 0,
    }
}

/// Makes the item lead on to another one. If the item is 0, nothing changes.
fn lead_on(links: &mut Rows<Link>, item: u32, to: u32)
    requires zero { link_at links.old 0 ≡ None }
    requires there { item ≢ 0 → IsSome (link_at links.old item) }
    ensures rows { (q : ℕ) → link_at links.new q ≡ cond (nat_eq q item) (leading_on to (link_at links.old q)) (link_at links.old q) }
    ensures len { length links.new ≡ length links.old }
{
    if item == 0 {
        return;
    }
    let old = links.known(item);
    let row = Link {
        owner: old.owner,
        previous: old.previous,
        next: to,
    };
    links.set(item, row);
}

/// Makes the item lead back to another one. If the item is 0, nothing changes.
fn lead_back(links: &mut Rows<Link>, item: u32, to: u32)
    requires zero { link_at links.old 0 ≡ None }
    requires there { item ≢ 0 → IsSome (link_at links.old item) }
    ensures rows { (q : ℕ) → link_at links.new q ≡ cond (nat_eq q item) (leading_back to (link_at links.old q)) (link_at links.old q) }
    ensures len { length links.new ≡ length links.old }
{
    if item == 0 {
        return;
    }
    let old = links.known(item);
    let row = Link {
        owner: old.owner,
        previous: to,
        next: old.next,
    };
    links.set(item, row);
}

/// Puts the item into the chain, between the two to which it leads.
#[tactic(auto, unfolding(crate::specs::owner_chains::Chains::linked_in))]
pub(crate) fn link_in(links: &mut Rows<Link>, item: u32, new: Link)
    requires within { item < length links.old }
    requires zero { link_at links.old 0 ≡ None }
    requires previous { new.previous ≢ 0 → IsSome (link_at links.old new.previous) }
    requires next { new.next ≢ 0 → IsSome (link_at links.old new.next) }
    ensures rows { (q : ℕ) → link_at links.new q ≡ linked_in item new q (link_at links.old q) }
    ensures len { length links.new ≡ length links.old }
{
    lead_on(links, new.previous, item);
    lead_back(links, new.next, item);
    links.put(item, new);
}

/// Takes the item out of the chain: the two to which it leads then lead to each other.
#[tactic(auto, unfolding(crate::specs::owner_chains::Chains::linked_out))]
pub(crate) fn link_out(links: &mut Rows<Link>, item: u32, old: Link)
    requires within { item < length links.old }
    requires zero { link_at links.old 0 ≡ None }
    requires previous { old.previous ≢ 0 → IsSome (link_at links.old old.previous) }
    requires next { old.next ≢ 0 → IsSome (link_at links.old old.next) }
    ensures rows { (q : ℕ) → link_at links.new q ≡ linked_out item old q (link_at links.old q) }
    ensures len { length links.new ≡ length links.old }
{
    lead_on(links, old.previous, old.next);
    lead_back(links, old.next, old.previous);
    links.take(item);
}

/// Gives an owner a new item, which is in the chain, and notes it in what the owner has.
pub(crate) fn gain(heads: &mut Rows<Head>, item: u32, new: Link, old: Head)
    requires old { old ≡ head_at heads.old new.owner }
    requires there { new.owner < length heads.old }
    requires limit { (head_at heads.old new.owner).count ≤ 1000001 }
    ensures rows { (q : ℕ) → head_at heads.new q ≡ cond (nat_eq q new.owner) (gained item new (head_at heads.old new.owner)) (head_at heads.old q) }
    ensures len { length heads.new ≡ length heads.old }
{
    let head = Head {
        count: old.count + 1,
        first: if new.previous == 0 { item } else { old.first },
        finger: item,
    };
    if old.count == 0 {
        heads.put(new.owner, head);
    } else {
        heads.set(new.owner, head);
    }
}

/// Takes an item from its owner.
pub(crate) fn lose(heads: &mut Rows<Head>, old: Link)
    requires { 1 ≤ (head_at heads.old old.owner).count }
    ensures rows { (q : ℕ) → head_at heads.new q ≡ cond (nat_eq q old.owner) (lost old (head_at heads.old old.owner)) (head_at heads.old q) }
    ensures len { length heads.new ≡ length heads.old }
{
    let head = known_head(heads, old.owner);
    let is_first = old.previous == 0;
    let left = Head {
        count: head.count - 1,
        first: if is_first { old.next } else { head.first },
        finger: if is_first { old.next } else { old.previous },
    };
    heads.set(old.owner, left);
}
