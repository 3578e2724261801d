ghost use Rattle.std.specs.Prelude.{◌≡◌, ◌<◌, ◌≤◌, length, IfOk, IfSome, OnOk, OnErr, None};
ghost use Rattle.std.specs.Option.{option_copied};
ghost use Rattle.tt_vars.specs.Links.{AreSame, Changes, HasNames, HasSize, Links, Reads, Removes, Writes};
ghost use Rattle.tt_vars.specs.Links.{lent_text, place_of};
ghost use Rattle.tt_store.specs.Levels.{HasDepth, above, with_script_in, with_procedure_level, caller_of};
ghost use Rattle.tt_store.specs.Levels.{global_level, levels_after_end};
ghost use Rattle.tt_store.specs.Levels.{with_frames};
ghost use Rattle.tt_store.specs.Spots.{place_in};

use crate::spot::Spot;
use std::alloc::Global;
use std::marker::Model;
use tt_text::{NoMemory, Text, Texts};
use tt_value::{Changing, Made, Value};
use tt_vars::{Linked, VarFault, Vars, Written};

/// What was begun (proc(n), uplevel(n)).
#[derive(Clone, Copy, Debug, PartialEq, Eq)]
pub(crate) enum Begun {
    /// The body of a procedure, in a frame of its own.
    Procedure,
    /// A script in a frame that is there; `back` is the one that was current.
    Script { back: u64 },
}

/// The frames of variables, which of them is current, who called which, and what was begun.
#[derive(Debug, Drop)]
pub(crate) struct Nesting {
    vars: Vars,
    callers: Vec<u64>,
    current: u64,
    begun: Vec<Begun>,
}

impl Model for Nesting {
    ghost use Rattle.std.specs.Prelude.{reverse};
    ghost use Rattle.tt_store.specs.Levels.{IsNested, Levels};

    ghost Value = { Levels };

    ghost view = { λ nesting.
        record {
          frames = nesting.vars;
          callers = nesting.callers.items;
          current = nesting.current;
          begun = reverse nesting.begun.items;
        } };

    ghost invariant = { λ nesting.
        IsNested (record {
          frames = nesting.vars;
          callers = nesting.callers.items;
          current = nesting.current;
          begun = reverse nesting.begun.items;
        }) };
}

impl Nesting {
    pub(crate) fn new(alloc: Global) -> Result<Self, NoMemory>
        ensures { IfOk result (λ nesting. nesting ≡ global_level) }
    {
        let vars = Vars::new(alloc)?;
        let mut callers = Vec::new(alloc);
        callers.push(0)?;
        Ok(Nesting {
            vars,
            callers,
            current: 0,
            begun: Vec::new(alloc),
        })
    }

    /// A procedure is called.
    pub(crate) fn call(&mut self) -> Result<(), NoMemory>
        ensures called { OnOk result (self.new ≡ with_procedure_level self.old) }
        ensures unchanged { OnErr result (self.new ≡ self.old) }
    {
        self.callers.reserve(1)?;
        self.begun.reserve(1)?;
        self.vars.push_frame()?;
        self.callers.push_reserved(self.current);
        self.begun.push_reserved(Begun::Procedure);
        self.current = self.vars.depth();
        Ok(())
    }

    /// A script begins in a frame that is there.
    pub(crate) fn begin(&mut self, frame: u64) -> Result<(), NoMemory>
        requires { frame ≤ self.old.current }
        ensures begun { OnOk result (self.new ≡ with_script_in frame self.old) }
        ensures unchanged { OnErr result (self.new ≡ self.old) }
    {
        self.begun.push(Begun::Script { back: self.current })?;
        self.current = frame;
        Ok(())
    }

    /// A script begins in the global frame.
    pub(crate) fn begin_global(&mut self) -> Result<(), NoMemory>
        ensures begun { OnOk result (self.new ≡ with_script_in 0 self.old) }
        ensures unchanged { OnErr result (self.new ≡ self.old) }
    {
        self.begun.push(Begun::Script { back: self.current })?;
        self.current = 0;
        Ok(())
    }

    /// A script begins in the current frame.
    pub(crate) fn begin_here(&mut self) -> Result<(), NoMemory>
        ensures begun { OnOk result (self.new ≡ with_script_in self.old.current self.old) }
        ensures unchanged { OnErr result (self.new ≡ self.old) }
    {
        self.begin(self.current)
    }

    /// What was begun last has ended.
    pub(crate) fn leave(&mut self)
        ensures { self.new ≡ levels_after_end self.old }
    {
        match self.begun.pop() {
            Some(Begun::Script { back }) => self.current = back,
            Some(Begun::Procedure) => {
                self.vars.pop_frame();
                if let Some(caller) = self.callers.pop() {
                    self.current = caller;
                }
            }
            None => {}
        }
    }

    /// How many callers up the global frame is from the current one.
    pub(crate) fn depth(&self) -> u64
        ensures { HasDepth self.now result }
    {
        let mut frame = self.current;
        let mut depth = 0;
        'callers: while frame > 0 {
            frame = self.caller(frame);
            depth += 1;
        }
        depth
    }

    /// The frame that is so many callers up from the current one.
    pub(crate) fn above(&self, count: u64) -> Option<u64>
        ensures above { result ≡ above self.now count self.now.current }
        ensures lower { IfSome result (λ frame. frame ≤ self.now.current) }
    {
        let mut frame = self.current;
        'callers: for _ in 0..count {
            if frame == 0 {
                return None;
            }
            frame = self.caller(frame);
        }
        Some(frame)
    }

    fn caller(&self, frame: u64) -> u64
        requires called { 0 < frame }
        requires there { frame < length self.now.callers }
        ensures caller { result ≡ caller_of self.now frame }
        ensures lower { result < frame }
    {
        self.callers[frame as usize]
    }

    /// Makes a name of the current frame a link.
    pub(crate) fn link(&mut self, local: &Text, frame: u64, spot: &Spot) -> Result<Linked, NoMemory>
        requires lower { frame ≤ self.old.current }
        ensures linked { IfOk result (λ answer.
            Links self.old.frames self.old.current local.now (place_in frame spot.now) self.new.frames answer) }
        ensures rest { self.new ≡ with_frames self.old self.new.frames }
        ensures unchanged { OnErr result (self.new ≡ self.old) }
    {
        let other = if spot.global { 0 } else { frame };
        self.vars.link(self.current, local, other, &spot.name, spot.index.as_ref())
    }

    /// The indices of the array that a name stands for.
    pub(crate) fn indices(&self, spot: &Spot) -> Result<Option<Texts>, NoMemory>
        requires { spot.now.index ≡ None }
        ensures { IfOk result (λ names. HasNames self.now.frames (place_in self.now.current spot.now) names) }
    {
        self.vars.names(self.frame_of(spot), &spot.name)
    }

    /// How many elements it has.
    pub(crate) fn size(&self, spot: &Spot) -> Option<usize>
        requires { spot.now.index ≡ None }
        ensures { HasSize self.now.frames (place_in self.now.current spot.now) result }
    {
        self.vars.size(self.frame_of(spot), &spot.name)
    }

    fn frame_of(&self, spot: &Spot) -> u64
        ensures frame { result ≡ (place_in self.now.current spot.now).frame }
        ensures there { result < length self.now.frames }
    {
        if spot.global { 0 } else { self.current }
    }

    /// The value of a name.
    pub(crate) fn read(&self, spot: &Spot) -> Result<&Value, VarFault>
        ensures { Reads self.now.frames (place_in self.now.current spot.now) (lent_text result) }
    {
        self.vars
            .read(self.frame_of(spot), &spot.name, spot.index.as_ref())
    }

    /// The value of a name of the current frame.
    pub(crate) fn read_here(&self, name: &Text, index: Option<&Text>) -> Result<&Value, VarFault>
        ensures { Reads self.now.frames (place_of self.now.current name.now (option_copied index.entry))
            (lent_text result) }
    {
        self.vars.read(self.current, name, index)
    }

    /// Writes a value to a name of the current frame.
    pub(crate) fn write_here(&mut self, name: &Text, value: Value) -> Result<Written, NoMemory>
        ensures written { IfOk result (λ answer.
            Writes self.old.frames (place_of self.old.current name.now None) value self.new.frames answer) }
        ensures rest { self.new ≡ with_frames self.old self.new.frames }
        ensures unchanged { OnErr result (self.new ≡ self.old) }
    {
        self.vars.write(self.current, name, None, value)
    }

    /// Changes the value of a name of the current frame.
    pub(crate) fn change_here<C: Changing>(
        &mut self,
        name: &Text,
        changing: &C,
    ) -> Result<Result<Made, VarFault>, NoMemory>
        ensures changed { IfOk result (λ answer.
            Changes (C.meaning changing.now) self.old.frames (place_of self.old.current name.now None) self.new.frames
            answer) }
        ensures rest { self.new ≡ with_frames self.old self.new.frames }
    {
        self.vars.change(self.current, name, None, changing)
    }

    /// The value of a name is kept as a list, if it is one and there is memory for its items. No text changes.
    pub(crate) fn keep_items(&mut self, spot: &Spot)
        ensures same { self.new ≡ self.old }
    {
        let frame = self.frame_of(spot);
        drop(self.vars.items(frame, &spot.name, spot.index.as_ref()));
    }

    /// Writes a value to a name.
    pub(crate) fn write(&mut self, spot: &Spot, value: Value) -> Result<Written, NoMemory>
        ensures written { IfOk result (λ answer.
            Writes self.old.frames (place_in self.old.current spot.now) value self.new.frames answer) }
        ensures rest { self.new ≡ with_frames self.old self.new.frames }
        ensures unchanged { OnErr result (self.new ≡ self.old) }
    {
        let frame = self.frame_of(spot);
        self.vars
            .write(frame, &spot.name, spot.index.as_ref(), value)
    }

    /// Changes the value of a name.
    pub(crate) fn change<C: Changing>(
        &mut self,
        spot: &Spot,
        changing: &C,
    ) -> Result<Result<Made, VarFault>, NoMemory>
        ensures changed { IfOk result (λ answer.
            Changes (C.meaning changing.now) self.old.frames (place_in self.old.current spot.now) self.new.frames
            answer) }
        ensures rest { self.new ≡ with_frames self.old self.new.frames }
    {
        let frame = self.frame_of(spot);
        self.vars
            .change(frame, &spot.name, spot.index.as_ref(), changing)
    }

    /// Removes a name.
    pub(crate) fn unset(&mut self, spot: &Spot) -> Result<Result<(), VarFault>, NoMemory>
        ensures removed { IfOk result
            (Removes self.old.frames (place_in self.old.current spot.now) self.new.frames) }
        ensures rest { self.new ≡ with_frames self.old self.new.frames }
    {
        let frame = self.frame_of(spot);
        self.vars.unset(frame, &spot.name, spot.index.as_ref())
    }

    /// Whether a name and a global one stand for the same.
    pub(crate) fn is_same(&self, spot: &Spot, name: &Text, index: Option<&Text>) -> bool
        ensures { AreSame self.now.frames (place_in self.now.current spot.now)
            (place_of 0 name.now (option_copied index.entry)) result }
    {
        self.vars.same(
            self.frame_of(spot),
            &spot.name,
            spot.index.as_ref(),
            name,
            index,
        )
    }
}
