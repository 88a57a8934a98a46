//! Laws of reading. Each function is empty: what it promises is a law of the definitions alone.
ghost use Rattle.std.specs.Prelude.{◌≡◌, ◌≤◌, ℕ, List, length, Ok, Err};
ghost use Rattle.pg_plan.specs.Faults.{IsFirstFault};
ghost use Rattle.pg_plan.specs.PlanFile.{plan_of};
ghost use Rattle.pg_plan.specs.Places.{IsPlan};
ghost use Rattle.pg_plan.specs.Print.{printed_plan};
ghost use Rattle.pg_plan.specs.declared.fault.Fault.{Fault};
ghost use Rattle.pg_plan.specs.declared.fault.TheConstants.{MAX_PLAN_BYTES};
ghost use Rattle.pg_plan.specs.declared.place.Place.{Place};

/// A fault that reading gives is the first: the file is too large; or its first line isn't the
/// header; or no line before the one that it names has a fault, and it is the least of those of its
/// line.
pub fn first_plan_fault_is_told()
    ensures { (text : List ℕ) → (fault : Fault) → (number : ℕ)
        → plan_of text ≡ Err (fault, number)
        → IsFirstFault text fault number }
{}

/// The positions that are read are those of a plan: their numbers are in range, each names earlier
/// ones only, and there aren't too many.
pub fn what_is_read_is_a_plan()
    ensures { (text : List ℕ) → (places : List Place) → plan_of text ≡ Ok places
        → IsPlan places }
{}

/// A printed plan reads back as itself, if its text isn't too large for a file.
pub fn printed_plan_is_read()
    ensures { (places : List Place) → IsPlan places
        → length (printed_plan places) ≤ MAX_PLAN_BYTES
        → plan_of (printed_plan places) ≡ Ok places }
{}
