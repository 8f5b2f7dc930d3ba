//! The table's rule, and what its steps tell.

use atomic_table::{Join, Play, Split, TableRule};
use cet_words::{Image, Signal};
use std::marker::Model;
use std::snapshot::Snapshot;

/// What a pass knows. No value of it is ever made.
pub struct View {
    nothing: u8,
}

impl Model for View {
    ghost use Rattle.cet_shared.specs.Held.{Held, nobody};

    ghost Value = { Held };

    ghost view = { λ _. nobody };
}

/// The job that a table is made with.
#[derive(Drop)]
pub struct Key {
    pub image: Snapshot<Image>,
    pub procs: u8,
    pub limit: u32,
    pub signals: Vec<Signal>,
}

/// One schedule explains the words and all threads.
pub struct Explains;

impl TableRule<(), View, Key> for Explains {
    ghost use Rattle.cet_shared.specs.Held.{first_view};
    ghost use Rattle.cet_shared.specs.Rule.{Explained};
    ghost use Rattle.cet_shared.specs.Keys.{job_of};

    ghost holds = { λ key table. Explained (job_of key) table.words table.views };

    ghost first = { λ key. first_view (job_of key) };
}

/// A step that makes the next access of the pass's own thread.
pub struct OneAccess;

impl Play<(), View> for OneAccess {
    ghost use Rattle.cet_shared.specs.Performed.{Acts};

    ghost then = { Acts };
}

/// A look that brings a child before the others: the word that it reads has the child's number.
pub struct Bring;

impl Play<(), View> for Bring {
    ghost use Rattle.cet_shared.specs.Performed.{Brings};

    ghost then = { Brings };
}

/// A look that tells a pass with all parts that it holds all threads.
pub struct Audit;

impl Play<(), View> for Audit {
    ghost use Rattle.cet_shared.specs.Closing.{Audited};

    ghost then = { Audited };
}

/// The child that comes first gets a pass of its own.
pub struct Child;

impl Split<View> for Child {
    ghost use Rattle.cet_shared.specs.Held.{without_first, first_child};

    ghost left = { without_first };

    ghost right = { first_child };
}

/// A pass goes into another.
pub struct Ended;

impl Join<View> for Ended {
    ghost use Rattle.cet_shared.specs.Held.{together, nobody};

    ghost both = { together };

    ghost spent = { nobody };
}
