//! Laws of the input of a check.
ghost use Rattle.std.specs.Prelude.{◌≡◌, ℕ, List};
ghost use Rattle.zy_capture.specs.Outputs.{AllOutputs, AreOutputs};
ghost use Rattle.zy_journal.specs.declared.journal.Journal.{Journal};
ghost use Rattle.zy_input.specs.Parts.{IsMadeOfParts};

/// An input has one meaning: its streams, its journal and its outputs are determined.
pub fn an_input_has_one_set_of_parts()
    ensures streams { (text : List ℕ) (s t : List (List (List ℕ))) (j k : Journal)
        (o p : AllOutputs) → IsMadeOfParts text s j o → IsMadeOfParts text t k p → s ≡ t }
    ensures journal { (text : List ℕ) (s t : List (List (List ℕ))) (j k : Journal)
        (o p : AllOutputs) → IsMadeOfParts text s j o → IsMadeOfParts text t k p → j ≡ k }
    ensures outputs { (text : List ℕ) (s t : List (List (List ℕ))) (j k : Journal)
        (o p : AllOutputs) → AreOutputs o → AreOutputs p → IsMadeOfParts text s j o
        → IsMadeOfParts text t k p → o ≡ p }
{}
