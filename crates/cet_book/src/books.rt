//! The book: who has which shadow stack and supervisor stack, and what is on each.

ghost use Rattle.std.specs.Prelude.{◌≡◌, IfOk};
ghost use Rattle.cet_book.specs.Book.{book_step, first_book};
ghost use Rattle.cet_book.specs.Events.{Applied};

use crate::entries::Holder;
use crate::events::{BookFault, Event};
use crate::gates::{busied, freed};
use crate::stacks::Stack;
use crate::steps::{
    acquired, born, called, claimed, ended, popped, pushed, raised, released, returned, seeded,
};
use cet_words::{FIRST_REGION_END, FIRST_REGION_START, NoMemory};
use std::alloc::Global;
use std::marker::Model;

/// The book of shadow stacks: the regions in the order of their claims, and the thread that holds each of the eight
/// supervisor stacks.
#[derive(Drop)]
pub struct Book {
    pub(crate) stacks: Vec<Stack>,
    pub(crate) gates: [Option<u8>; 8],
    /// The number of the region that each thread came to last. It is its present one, where it has one.
    latest: [u32; 256],
}

impl Model for Book {
    ghost use Rattle.cet_book.specs.Book.{Book as BookData};
    ghost use Rattle.cet_book.specs.Latest.{IsListed};

    ghost Value = { BookData };

    ghost view = { λ b. record { regions = b.stacks.items; stacks = b.gates } };

    ghost invariant = { λ b. IsListed b.stacks.items b.gates b.latest };
}

impl Book {
    /// The book at the start: region 0, on which thread 0 is, and free supervisor stacks.
    pub fn new(alloc: Global) -> Result<Book, NoMemory>
        ensures { IfOk result (λ b. b ≡ first_book) }
    {
        let first = Stack::new(
            alloc,
            FIRST_REGION_START,
            FIRST_REGION_END,
            Holder::Current(0),
        );
        let mut stacks = Vec::new(alloc);
        stacks.push(first)?;
        Ok(Book {
            stacks,
            gates: [None; 8],
            latest: [0; 256],
        })
    }

    /// Makes the change that an event stands for. `NotLegal` exactly where the book has no such event, also when memory is
    /// short; a refusal changes nothing.
    pub fn apply(&mut self, alloc: Global, event: &Event) -> Result<(), BookFault>
        ensures { Applied result self.old self.new (book_step self.old event.now) }
    {
        match *event {
            Event::Called { thread, back } => called(&mut self.stacks, &self.latest, thread, back),
            Event::Returned { thread } => returned(&mut self.stacks, &self.latest, thread),
            Event::Raised { thread, count } => raised(
                &mut self.stacks,
                &self.latest,
                thread,
                count,
            ),
            Event::Acquired { thread, at } => acquired(
                &mut self.stacks,
                &mut self.latest,
                thread,
                at,
            ),
            Event::Released { thread } => released(&mut self.stacks, &self.latest, thread),
            Event::Claimed {
                thread,
                start,
                pages,
                maker,
            } => claimed(alloc, &mut self.stacks, thread, start, pages, maker),
            Event::Seeded {
                thread,
                region,
                blanks,
            } => seeded(alloc, &mut self.stacks, thread, region, blanks),
            Event::Born {
                parent,
                child,
                region,
            } => born(&mut self.stacks, &mut self.latest, parent, child, region),
            Event::Pushed { thread, restorer } => pushed(
                &mut self.stacks,
                &self.latest,
                thread,
                restorer,
            ),
            Event::Popped { thread } => popped(&mut self.stacks, &self.latest, thread),
            Event::Ended { thread } => ended(&mut self.stacks, &self.latest, thread),
            Event::Busied { thread, stack } => busied(&mut self.gates, thread, stack),
            Event::Freed { thread, stack } => freed(&mut self.gates, thread, stack),
        }
    }
}
