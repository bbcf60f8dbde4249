//! The rule of the table: what holds of the words between any two steps, and what seats may know.
//! `specs/Ruled.antt` has it.
ghost use Rattle.std.specs.Prelude.{ℕ};

use crate::known::Known;
use atomic_table::{Join, Play, Split, TableRule};
use clsm_law::Layout;
use std::marker::{Brand, PhantomData};

/// What holds of the words between any two steps.
pub struct Law;

impl TableRule<u64, Known, Layout> for Law {
    ghost use Rattle.clsm_words.specs.Ruled.{Ruled};
    ghost use Rattle.clsm_words.specs.Knowing.{new_merger};

    ghost holds = { Ruled };

    ghost first = { new_merger };
}

/// What a step leaves of what its seat knows. Each call picks it.
pub trait Told {
    ghost use Rattle.clsm_words.specs.declared.known.Known.{Known};

    // Of what it knew, the word that was found, and what it knows after.
    ghost follows: { Known → ℕ → Known → Type 0 };
}

impl Told for Brand {
    ghost use Rattle.std.specs.Prelude.{◌≡◌};

    ghost follows = { λ before found after. before ≡ after };
}

/// A seat plays the step.
pub struct Does<E> {
    of: PhantomData<E>,
}

impl<E: Told> Play<u64, Known> for Does<E> {
    ghost then = { λ at before found after. E.follows before.0 found after.0 };
}

/// A seat plays the step by a store, which is not told what it found.
pub struct Stores<E> {
    of: PhantomData<E>,
}

impl<E: Told> Play<u64, Known> for Stores<E> {
    ghost then = { λ at before stored after. (x : ℕ) × E.follows before.0 x after.0 };
}

/// The merger's seat deals a caller's.
pub struct Deals;

impl Split<Known> for Deals {
    ghost use Rattle.clsm_words.specs.Knowing.{deals, unplayed};

    ghost left = { deals };

    ghost right = { λ k. unplayed k.layout k.dealt };
}

/// One seat tells another of its past.
pub struct Tells;

impl Split<Known> for Tells {
    ghost use Rattle.clsm_words.specs.Knowing.{messenger, known_of};

    ghost left = { λ k. k };

    ghost right = { λ k. messenger (known_of k) k.view.due };
}

impl Join<Known> for Tells {
    ghost use Rattle.std.specs.Prelude.{[]};
    ghost use Rattle.clsm_model.specs.History.{plain};
    ghost use Rattle.clsm_words.specs.Knowing.{messenger, learns};

    ghost both = { learns };

    ghost spent = { messenger (plain []) 0 };
}
