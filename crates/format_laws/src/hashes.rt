//! The hash of receive side scaling, by its published values.
ghost use Rattle.std.specs.Prelude.{◌≡◌, [], ◌∷◌};
ghost use Rattle.zy_rss.specs.Toeplitz.{toeplitz};

/// The hash has the values that Microsoft's "Verifying the RSS hash calculation" gives for IPv4
/// with ports.
pub fn the_published_values_hold()
    ensures first { toeplitz (66 ∷ 9 ∷ 149 ∷ 187 ∷ 161 ∷ 142 ∷ 100 ∷ 80 ∷ 10 ∷ 234 ∷ 6 ∷ 230 ∷ [])
        ≡ 0x51ccc178 }
    ensures second { toeplitz (199 ∷ 92 ∷ 111 ∷ 2 ∷ 65 ∷ 69 ∷ 140 ∷ 83 ∷ 55 ∷ 150 ∷ 18 ∷ 131 ∷ [])
        ≡ 0xc626b0ea }
    ensures third { toeplitz (24 ∷ 19 ∷ 198 ∷ 95 ∷ 12 ∷ 22 ∷ 207 ∷ 184 ∷ 50 ∷ 98 ∷ 148 ∷ 136 ∷ [])
        ≡ 0x5c2b394a }
    ensures fourth { toeplitz (38 ∷ 27 ∷ 205 ∷ 30 ∷ 209 ∷ 142 ∷ 163 ∷ 6 ∷ 188 ∷ 100 ∷ 8 ∷ 169 ∷ [])
        ≡ 0xafc7327f }
    ensures fifth { toeplitz (153 ∷ 39 ∷ 163 ∷ 191 ∷ 202 ∷ 188 ∷ 127 ∷ 2 ∷ 172 ∷ 219 ∷ 5 ∷ 23 ∷ [])
        ≡ 0x10e828a2 }
{}
