//! Dealing items to groups in turn, and collecting them again in their order.
ghost use Rattle.std.specs.Prelude.{◌≡◌, ◌+◌, ◌<◌, ◌≤◌, ℕ, List, [], ◌∷◌, ◌++◌, length, vec_len, vec_capacity};
ghost use Rattle.std.specs.Prelude.{IfSome, IfNone, IfOk};
ghost use Rattle.zy_deal.specs.Deal.{lists_of, AreEmpty, Deals, gathered, TakesFirst, HasNoFirst, HaveRoom};

use std::alloc::Global;
use zy_base::NoMemory;

/// Makes `groups` empty groups, each with room for `room` items.
pub fn empty_groups<T: Drop>(
    alloc: Global,
    room: usize,
    groups: usize,
) -> Result<Vec<Vec<T>>, NoMemory>
    ensures groups { IfOk result (λ made. HaveRoom room made.items × AreEmpty (lists_of made.items)) }
    ensures len { IfOk result (λ made. vec_len made ≡ groups) }
{
    let mut made = Vec::with_capacity(alloc, groups)?;
    for _ in 0..groups {
        let group = Vec::with_capacity(alloc, room)?;
        made.push_reserved(group);
    }
    Ok(made)
}

/// Takes the first item of the first group, `count` times; each time that group goes to the end.
pub fn collect<T: Drop>(groups: Vec<Vec<T>>, count: usize, back: &mut Vec<T>)
    requires room { vec_len back.old + count ≤ vec_capacity back.old }
    ensures value { back.new.items ≡ back.old.items ++ gathered count (lists_of groups.items) }
{
    let mut groups = groups;
    for _ in 0..count {
        match take_next(&mut groups) {
            Some(item) => back.push_reserved(item),
            None => return,
        }
    }
}

// Takes the first item of the first group, which goes to the end.
fn take_next<T: Drop>(groups: &mut Vec<Vec<T>>) -> Option<T>
    ensures some { IfSome result (λ x. TakesFirst x (lists_of groups.old.items) (lists_of groups.new.items)) }
    ensures none { IfNone result (HasNoFirst (lists_of groups.old.items)) }
{
    if groups.is_empty() || groups[0].is_empty() {
        return None;
    }
    let mut group = groups.remove(0);
    let item = group.remove(0);
    groups.push_reserved(group);
    Some(item)
}

/// Deals to the groups in turn: the first item to the first group, the next to the next. It begins
/// with the last item, which is put in front of the last group, and that group is moved to the
/// front.
pub fn deal<T: Drop>(items: Vec<T>, groups: &mut Vec<Vec<T>>)
    requires some { 0 < vec_len groups.old }
    requires empty { Deals (lists_of groups.old.items) [] }
    requires room { HaveRoom (vec_len items) groups.old.items }
    ensures dealt { Deals (lists_of groups.new.items) items.items }
    ensures len { vec_len groups.new ≡ vec_len groups.old }
{
    let mut items = items;
    for _ in 0..items.len() {
        let item = items.remove(items.len() - 1);
        put_before(groups, item);
    }
}

// Puts an item in front of the last group, and moves that group to the front.
fn put_before<T: Drop>(groups: &mut Vec<Vec<T>>, item: T)
    requires some { 0 < vec_len groups.old }
    requires room { HaveRoom 1 groups.old.items }
    ensures dealt { (rest : List T) → Deals (lists_of groups.old.items) rest
        → Deals (lists_of groups.new.items) (item ∷ rest) }
    ensures room { (n : ℕ) → HaveRoom (n + 1) groups.old.items → HaveRoom n groups.new.items }
    ensures len { vec_len groups.new ≡ vec_len groups.old }
{
    let mut group = groups.remove(groups.len() - 1);
    prepend(&mut group, item);
    prepend(groups, group);
}

// Puts the value in front. There is spare capacity.
fn prepend<T: Drop>(values: &mut Vec<T>, value: T)
    requires room { vec_len values.old < vec_capacity values.old }
    ensures items { values.new.items ≡ value ∷ values.old.items }
    ensures len { vec_len values.new ≡ vec_len values.old + 1 }
    ensures capacity { vec_capacity values.old ≤ vec_capacity values.new }
{
    if values.insert(0, value).is_err() {
        unreachable!()
    }
}
