//! Laws of a journal's bytes.
ghost use Rattle.std.specs.Prelude.{◌≡◌, ◌+◌, ◌*◌, ◌++◌, ◌<◌, ◌≤◌, Ok, Err, Bool, false};
ghost use Rattle.std.specs.Prelude.{All, List, ℕ, length, take, drop};
ghost use Rattle.liq_types.specs.Image.{IsLimit};
ghost use Rattle.liq_journal.specs.Records.{records};
ghost use Rattle.liq_journal.specs.Crash.{Stands};
ghost use Rattle.liq_outside.specs.Disk.{Torn};
ghost use Rattle.liq_journal.specs.declared.damage.Damage.{Damage};
ghost use Rattle.liq_journal.specs.declared.answers.Look.TheVariants as Look;
ghost use Rattle.liq_journal.specs.declared.answers.LookFault.TheVariants.{Damaged};
ghost use Rattle.liq_journal.specs.Look.{look_on};
ghost use Rattle.liq_journal.specs.Written as Found;
ghost use Rattle.liq_types.specs.Verbs.{is_rotate};
ghost use Rattle.liq_journal.specs.Written.{Open, Written, end_of, found_on, start_of};
ghost use Rattle.liq_journal.specs.Written.{found_records, most_records};

/// A front of whole records that other bytes have too is read there too, and then what stands
/// behind it.
pub fn a_front_is_read()
    ensures { (k fuel most : ℕ) (xs ys : List ℕ)
        → fuel ≡ k + most → length (records fuel xs) ≡ k → take (129 * k) ys ≡ take (129 * k) xs
        → records fuel ys ≡ records fuel xs ++ records most (drop (129 * k) ys) }
{}

/// The bytes up to a header's end decide the header.
pub fn a_header_is_decided()
    ensures { (odd : Bool) (held image : List ℕ) (w : Written) (m : ℕ) → found_on odd held ≡ Open w
        → start_of w ≤ m → m ≤ length held → take m image ≡ take m held
        → found_on odd image ≡ found_records w.generation w.limit w.checkpoint 1 (start_of w)
        (records most_records (drop (start_of w) image)) }
{}

/// Any part of a write behind the closed gate at the end leaves what is found.
pub fn behind_the_gate_nothing_counts()
    ensures { (odd : Bool) (held image : List ℕ) (w : Written) (n : ℕ) → Stands odd held w
        → length w.commands < 1000000 → Torn (end_of w + 1) n held image → Stands odd image w }
{}

/// No record of an open disk is a rotation.
pub fn no_record_is_a_rotation()
    ensures { (odd : Bool) (bytes : List ℕ) (w : Written) → found_on odd bytes ≡ Open w
        → All (λ c. is_rotate c.call ≡ false) w.commands }
{}

/// The limit of an open disk is one of two.
pub fn an_open_disk_has_a_limit()
    ensures { (odd : Bool) (bytes : List ℕ) (w : Written) → found_on odd bytes ≡ Open w
        → IsLimit w.limit }
{}

/// A look agrees with an opening: the same damage of the header, none open on both, or the
/// generation.
pub fn a_look_tells_the_header()
    ensures damaged { (odd : Bool) (held : List ℕ) (damage : Damage)
        → look_on odd held ≡ Err (Damaged damage) → found_on odd held ≡ Found.Damaged damage }
    ensures absent { (odd : Bool) (held : List ℕ) → look_on odd held ≡ Ok Look.Absent
        → found_on odd held ≡ Found.Absent }
    ensures open_on { (odd : Bool) (held : List ℕ) (w : Written) → found_on odd held ≡ Found.Open w
        → look_on odd held ≡ Ok (Look.Open w.generation) }
{}
