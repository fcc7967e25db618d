//! Example values: the numbers that a memcached may read of them.
ghost use Rattle.std.specs.Prelude.{◌≡◌, true, false, [], codes};
ghost use Rattle.mc_allows.specs.Values.{may_read, may_read_none};

/// Example values that are numbers: with spaces after the digits, or from 2^63 on, a memcached may
/// find none.
pub fn worked_values()
    ensures digits { may_read (codes "12") 12 ≡ true }
    ensures sure { may_read_none (codes "12") ≡ false }
    ensures other { may_read (codes "12") 13 ≡ false }
    ensures padded { may_read (codes "12 ") 12 ≡ true }
    ensures doubted { may_read_none (codes "12 ") ≡ true }
    ensures large { may_read_none (codes "9223372036854775808") ≡ true }
{}

/// Example values that are no numbers: of an odd one a memcached may read any number, of a word or
/// an empty value none.
pub fn worked_odd_values()
    ensures odd { may_read (codes "5 x") 7 ≡ true }
    ensures signed { may_read (codes "+5") 5 ≡ true }
    ensures none { may_read_none (codes "5 x") ≡ true }
    ensures word { may_read (codes "x") 5 ≡ false }
    ensures empty { may_read [] 0 ≡ false }
{}
