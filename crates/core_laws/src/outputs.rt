//! Laws of outputs: which texts are sent.
ghost use Rattle.std.specs.Prelude.{◌≡◌, ◌≤◌, ◌++◌, ℕ, List, [], length, codes};
ghost use Rattle.std.specs.List.{concat};
ghost use Rattle.zy_calls.specs.Batch.{Batch};
ghost use Rattle.zy_calls.specs.Output.{Output, nothing_sent, with_batch, bytes_upto};
ghost use Rattle.core_laws.specs.Sent.{with_batches, texts_sent};
ghost use Rattle.core_laws.specs.WorkedOutput.{worked};

/// The texts of an output are those of all its batches, in order; and its bytes
/// are the bytes of these texts.
pub fn texts_are_sent_in_order()
    ensures texts { (output : Output) (batches : List Batch)
        → (with_batches output batches).texts ≡ output.texts ++ texts_sent batches }
    ensures bytes { (conn : ℕ) (batches : List Batch)
        → concat (with_batches (nothing_sent conn) batches).texts ≡ concat (texts_sent batches) }
{}

/// The first texts of an output stay the same when a batch is added.
pub fn first_texts_stay()
    ensures stays { (output : Output) (batch : Batch) (count : ℕ) → count ≤ length output.texts
        → bytes_upto (with_batch output batch) count ≡ bytes_upto output count }
{}

/// An example output, as the definitions compute it from the texts of three holds.
pub fn the_worked_output_has_its_bytes()
    ensures conn { worked.conn ≡ 7 }
    ensures finished { worked.finished ≡ 5 }
    ensures count { length worked.texts ≡ 5 }
    ensures none { bytes_upto worked 0 ≡ [] }
    ensures first { bytes_upto worked 1 ≡ codes "STORED\r\n" }
    ensures empty { bytes_upto worked 2 ≡ codes "STORED\r\n" }
    ensures more { bytes_upto worked 3 ≡ codes "STORED\r\nEND\r\n" }
    ensures all { bytes_upto worked 5 ≡ codes "STORED\r\nEND\r\nOK\r\n" }
    ensures joined { concat worked.texts ≡ codes "STORED\r\nEND\r\nOK\r\n" }
{}
