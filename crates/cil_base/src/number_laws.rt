ghost use Rattle.std.specs.Prelude.{◌≡◌, ◌<◌, ◌^◌, ◌++◌, ℕ, ℤ, pos, neg_ℤ, ◌≤ℤ◌, ◌<ℤ◌, List, Some};
ghost use Rattle.cil_base.specs.Number.{spelled_number, strip_number};
ghost use Rattle.cil_base.specs.Signed.{spelled_signed, strip_signed};

/// Numbers have one reading: at most one number, of one length, stands at the front of given bytes, and the shortest form
/// of each is read whatever follows it (ECMA-335 II.23.2).
pub fn numbers_have_one_reading()
    ensures one { (m n : ℕ) (s q r : List ℕ) → strip_number m s ≡ Some q → strip_number n s ≡ Some r
        → (m ≡ n) × (q ≡ r) }
    ensures shortest { (n : ℕ) (r : List ℕ) → n < 2 ^ 29 → strip_number n (spelled_number n ++ r) ≡ Some r }
{}

/// Signed numbers have one reading, in the same sense (ECMA-335 II.23.2).
pub fn signed_numbers_have_one_reading()
    ensures one { (y z : ℤ) (s q r : List ℕ) → strip_signed y s ≡ Some q → strip_signed z s ≡ Some r
        → (y ≡ z) × (q ≡ r) }
    ensures shortest { (z : ℤ) (r : List ℕ) → neg_ℤ (pos (2 ^ 28)) ≤ℤ z → z <ℤ pos (2 ^ 28)
        → strip_signed z (spelled_signed z ++ r) ≡ Some r }
{}
