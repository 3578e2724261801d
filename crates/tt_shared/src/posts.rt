ghost use Rattle.std.specs.Prelude.{◌≡◌, ◌+◌, ◌^◌, ◌↔◌, OnOk, IsErr, IsSome, Some, option_copied, option_map};
ghost use Rattle.tt_shared.specs.Mail.{is_owed, no_posts, posts_with_next, posts_after, variable_post, with_plain};
ghost use Rattle.tt_shared.specs.Mail.{without_variable};
ghost use Rattle.tt_slots.specs.Waiting.{after_take, slot_of, state_of, with_state};
ghost use Rattle.tt_slots.specs.declared.slot.SlotState.TheVariants.{Result as Answered, Waiting};

use std::alloc::Global;
use std::collections::BTreeMap;
use std::marker::Model;
use tt_calls::{Mode, Outcome};
use tt_ids::number_after;
use tt_slots::{Slot, SlotState, Slots};
use tt_text::{NoMemory, Text};

/// A post whose answer goes to a variable of its sender (thread(n), thread::send -async with a variable's name).
#[derive(Debug, Drop)]
pub struct VariablePost {
    pub sender: u32,
    /// The thread that is to answer.
    pub target: u32,
    /// The variable.
    pub name: Text,
}

/// The posts that wait for an answer. Contracts see them by their numbers, with the number that the next one draws.
#[derive(Debug, Drop)]
pub struct Posts {
    slots: Slots,
    pub(crate) variables: BTreeMap<u64, VariablePost>,
    next: u64,
}

impl Model for Posts {
    ghost use Rattle.std.specs.Prelude.{◌<◌};
    ghost use Rattle.tt_shared.specs.Mail.{Posts as AnyPosts};

    ghost Value = { AnyPosts };

    ghost view = { λ posts. record { slots = posts.slots; variables = posts.variables.entries; next = posts.next } };

    ghost invariant = { λ posts. posts.slots.greatest < posts.next };
}

impl Posts {
    /// No posts. It takes no memory.
    pub fn new(alloc: Global) -> Self
        ensures empty { result ≡ no_posts }
    {
        Posts {
            slots: Slots::new(alloc),
            variables: BTreeMap::new(alloc),
            next: 1,
        }
    }

    /// The number that the next post draws.
    pub fn next(&self) -> u64
        ensures next { result ≡ self.now.next }
    {
        self.next
    }

    /// One post more.
    ///
    /// `NoMemory` if memory for it, or a number, is refused.
    pub fn post(
        &mut self,
        sender: u32,
        target: u32,
        mode: Mode,
        variable: Option<Text>,
    ) -> Result<(), NoMemory>
        ensures posted { OnOk result (self.new ≡ posts_with_next self.old sender target mode variable) }
    {
        let next = number_after(self.next)?;
        match (mode, variable) {
            (Mode::Waits, _) => self.slots.add(self.next, sender, target)?,
            (Mode::Later, Some(name)) => {
                let post = VariablePost {
                    sender,
                    target,
                    name,
                };
                self.variables.insert(self.next, post)?;
            }
            (Mode::Later, None) => {}
        }
        self.next = next;
        Ok(())
    }

    /// One post more, of which nobody asks the answer. It takes no memory.
    ///
    /// `NoMemory` exactly if the number after the next one is 2^64.
    pub fn pass(&mut self) -> Result<(), NoMemory>
        ensures passed { OnOk result (self.new ≡ with_plain self.old) }
        ensures full { IsErr result ↔ (self.old.next + 1 ≡ 2 ^ 64) }
    {
        self.next = number_after(self.next)?;
        Ok(())
    }

    /// The slot of a number; `None` exactly if it isn't open. It takes no memory.
    pub fn slot(&self, n: u64) -> Option<&Slot>
        ensures slot { option_copied result ≡ slot_of self.now.slots n }
    {
        self.slots.slot(n)
    }

    /// Answers what slot `n`, which is open, has, and closes it if it doesn't wait. It takes no memory.
    pub fn take(&mut self, n: u64) -> SlotState
        requires { IsSome (slot_of self.old.slots n) }
        ensures state { option_map (λ slot. slot.state) (slot_of self.old.slots n) ≡ Some result }
        ensures taken { self.new ≡ (record self.old { slots = after_take self.old.slots n result }) }
    {
        self.slots.take(n)
    }

    /// Puts the answer into slot `n`, which waits. It takes no memory.
    pub fn fill(&mut self, n: u64, outcome: Outcome)
        requires { state_of self.old.slots n ≡ Some Waiting }
        ensures filled { self.new ≡ (record self.old { slots = with_state self.old.slots n (Answered outcome) }) }
    {
        self.slots.fill(n, outcome);
    }

    /// The post of a number whose answer goes to a variable; `None` exactly if there is none. It takes no memory.
    pub fn variable(&self, n: u64) -> Option<&VariablePost>
        ensures variable { option_copied result ≡ variable_post self.now n }
    {
        self.variables.get(&n)
    }

    /// Takes that post out; `None` exactly if there is none. It takes no memory.
    pub fn take_variable(&mut self, n: u64) -> Option<VariablePost>
        ensures post { result ≡ variable_post self.old n }
        ensures removed { self.new ≡ without_variable self.old n }
    {
        self.variables.remove(&n)
    }

    /// The end of a thread, which answers nothing any more. It takes no memory.
    pub fn end(&mut self, target: u32)
        ensures ended { self.new ≡ posts_after self.old target }
    {
        self.slots.die_all(target);
        self.variables.retain(|_, post| !is_owed(post, target));
    }
}

// Whether the thread is to answer.
fn is_owed(post: &VariablePost, target: u32) -> bool
    ensures { result ≡ is_owed target post.now }
{
    post.target == target
}
