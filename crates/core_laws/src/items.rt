//! Laws of the items offered to the cores.
ghost use Rattle.std.specs.Prelude.{◌≡◌, ℕ, true, false, List, [], ◌∷◌, ◌++◌};
ghost use Rattle.zy_capture.specs.declared.record.Record.{Record};
ghost use Rattle.zy_rx.specs.declared.rx.Rx.{Rx};
ghost use Rattle.zy_rx.specs.Session.{received_by};
ghost use Rattle.zy_feed.specs.Routing.{offered_item, is_for, items_for, offered_to};

/// The item of one more record is offered last, and only to the home of its connection.
pub fn items_are_offered_one_by_one()
    ensures none { (cores core : ℕ) → items_for cores core [] ≡ [] }
    ensures here { (cores core : ℕ) (records : List Record) (last : Record)
        → is_for cores core (offered_item last) ≡ true
        → items_for cores core (records ++ last ∷ []) ≡ items_for cores core records ++ offered_item last ∷ [] }
    ensures other { (cores core : ℕ) (records : List Record) (last : Record)
        → is_for cores core (offered_item last) ≡ false
        → items_for cores core (records ++ last ∷ []) ≡ items_for cores core records }
{}

/// If the end was offered last, and a connection has received it, all items were taken.
pub fn all_that_was_offered_is_taken()
    ensures none { (cores core conn : ℕ) (records : List Record) (taken known : List Rx)
        → taken ++ known ≡ offered_to cores core records → (received_by conn taken).ended ≡ true
        → known ≡ [] }
    ensures all { (cores core conn : ℕ) (records : List Record) (taken known : List Rx)
        → taken ++ known ≡ offered_to cores core records → (received_by conn taken).ended ≡ true
        → taken ≡ offered_to cores core records }
{}
