ghost use Rattle.std.specs.Prelude.{◌≡◌, ◌+◌, ◌-◌, ◌<◌, ◌≤◌, ◌++◌, ◌∷◌, [], None, Some, take, length, IfOk, IfSome};
ghost use Rattle.std.specs.Prelude.{OnOk, OnErr};
ghost use Rattle.std.specs.Option.{option_copied, option_map};
ghost use Rattle.tt_vars.specs.declared.variable.Variable.TheVariants.{Link};
ghost use Rattle.tt_vars.specs.Variables.{with, Puts};
ghost use Rattle.tt_vars.specs.Links.{AreSame, Changes, HasNames, HasSize, Links, Reads, ReadsAs, Removes, Writes};
ghost use Rattle.tt_vars.specs.Links.{frame_at, lent_text, link_answer, place_of, reading_at, with_frame};
ghost use Rattle.tt_vars.specs.Links.{frames_after_write};
ghost use Rattle.tt_vars.specs.inside.Ending.{CanLink, LinksEnd};
ghost use Rattle.tt_vars.specs.inside.Found.{FindsAt, IsFound, place_at};

use crate::frame::Frame;
use crate::links::{Spot, follow, frame_in, is_of, is_same, is_variable, missing, owned};
use crate::reading::Reading;
use crate::variable::{Found, Place};
use crate::{Linked, VarFault, Written};
use std::alloc::Global;
use std::marker::Model;
use tt_text::{NoMemory, Text, Texts};
use tt_value::{Changing, Made, Value};

/// Variables: the frame of the global ones, 0, and one for each procedure that is called (upvar(n), uplevel(n)).
/// Contracts see the list of frames, from the global one; a frame is the list of its names in order of insertion,
/// each with a scalar's text, an array's pairs in order of insertion, or what a link leads to.
///
/// A name is that of a variable, or with an index that of an element of an array. Nothing is cut from a name: a
/// leading `::` or an index in parentheses is the caller's to read.
#[derive(Debug, Drop)]
pub struct Vars {
    frames: Vec<Frame>,
    /// A frame that was taken away, emptied: its room is for the next one.
    spare: Option<Frame>,
}

impl Model for Vars {
    ghost use Rattle.std.specs.Prelude.{◌≡◌, ℕ, List, [], ◌<◌, length, IfSome};
    ghost use Rattle.tt_vars.specs.declared.variable.Variable.{Variable as AnyVariable};
    ghost use Rattle.tt_vars.specs.inside.Ending.{LinksEnd};

    ghost Value = { List (List (List ℕ × AnyVariable)) };

    ghost view = { λ vars. vars.frames.items };

    ghost invariant = { λ vars.
        (0 < length vars.frames.items) × LinksEnd vars.frames.items × IfSome vars.spare (λ frame. frame ≡ []) };
}

impl Vars {
    /// The global frame alone, with no variables.
    ///
    /// `NoMemory` if memory for it is refused.
    pub fn new(alloc: Global) -> Result<Self, NoMemory>
        ensures one { IfOk result (λ vars. vars ≡ [] ∷ []) }
    {
        let mut frames = Vec::new(alloc);
        frames.push(Frame::new(alloc))?;
        Ok(Vars {
            frames,
            spare: None,
        })
    }

    /// Adds a frame above all others.
    ///
    /// `NoMemory` if memory for it is refused; then nothing has changed.
    pub fn push_frame(&mut self) -> Result<(), NoMemory>
        ensures pushed { OnOk result (self.new ≡ self.old ++ [] ∷ []) }
        ensures unchanged { OnErr result (self.new ≡ self.old) }
    {
        let frame = taken_or_new(*self.frames.allocator(), &mut self.spare);
        self.frames.push(frame)?;
        Ok(())
    }

    /// Takes the highest frame away, with its variables. The global one stays.
    pub fn pop_frame(&mut self)
        requires { 1 < length self.old }
        ensures { self.new ≡ take (length self.old - 1) self.old }
    {
        if let Some(frame) = self.frames.pop() {
            self.spare = Some(frame.emptied());
        }
    }

    /// The number of the highest frame.
    pub fn depth(&self) -> u64
        ensures { result + 1 ≡ length self.now }
    {
        self.frames.len() as u64 - 1
    }

    /// The value of a name (set(n)).
    pub fn read(&self, frame: u64, name: &Text, index: Option<&Text>) -> Result<&Value, VarFault>
        requires { frame < length self.now }
        ensures read { Reads self.now (place_of frame name.now (option_copied index.entry)) (lent_text result) }
    {
        let frames = self.frames.as_slice();
        match frame_in(frames, frame).value(name, index) {
            Some(value) => Ok(value),
            None => read_linked(frames, frame, name, index),
        }
    }

    /// Writes a value to a name (set(n)).
    ///
    /// `NoMemory` if memory for it is refused; then nothing has changed.
    pub fn write(
        &mut self,
        frame: u64,
        name: &Text,
        index: Option<&Text>,
        value: Value,
    ) -> Result<Written, NoMemory>
        requires { frame < length self.old }
        ensures written { IfOk result (λ answer.
            Writes self.old (place_of frame name.now (option_copied index.entry)) value self.new answer) }
        ensures unchanged { OnErr result (self.new ≡ self.old) }
    {
        let mut value = value;
        if index.is_none() && self.frames[frame as usize].exchange(name, &mut value) {
            return Ok(Written::Yes);
        }
        self.write_linked(frame, name, index, value)
    }

    // The same, of a name that may be a link or missing.
    #[inline(never)]
    fn write_linked(
        &mut self,
        frame: u64,
        name: &Text,
        index: Option<&Text>,
        value: Value,
    ) -> Result<Written, NoMemory>
        requires { frame < length self.old }
        ensures written { IfOk result (λ answer.
            Writes self.old (place_of frame name.now (option_copied index.entry)) value self.new answer) }
        ensures unchanged { OnErr result (self.new ≡ self.old) }
    {
        let spot = follow(
            self.frames.as_slice(),
            Spot {
                frame,
                name,
                index,
                hint: 0,
            },
        );
        let hint = hint_of(spot);
        let Some(place) = owned(spot)? else {
            return Ok(Written::No(VarFault::NotArray));
        };
        write_place(self.frames.as_mut_slice(), place, hint, value)
    }

    /// Removes a name (unset(n)): what it stands for after its links, which stay.
    ///
    /// `NoMemory` if memory is refused; then nothing has changed.
    pub fn unset(
        &mut self,
        frame: u64,
        name: &Text,
        index: Option<&Text>,
    ) -> Result<Result<(), VarFault>, NoMemory>
        requires { frame < length self.old }
        ensures removed { IfOk result
            (Removes self.old (place_of frame name.now (option_copied index.entry)) self.new) }
        ensures unchanged { OnErr result (self.new ≡ self.old) }
    {
        let (number, found) = match self.find(frame, name, index)? {
            Ok(found) => found,
            Err(fault) => return Ok(Err(fault)),
        };
        self.frames[number].remove_at(&found);
        Ok(Ok(()))
    }

    /// Changes the value of a name where it stands (append(n), lappend(n), incr(n)), with the faults of `read`. No
    /// frame comes or goes.
    ///
    /// `NoMemory` if memory is refused; then nothing is said of the value.
    pub fn change<C: Changing>(
        &mut self,
        frame: u64,
        name: &Text,
        index: Option<&Text>,
        changing: &C,
    ) -> Result<Result<Made, VarFault>, NoMemory>
        requires { frame < length self.old }
        ensures changed { IfOk result (λ answer.
            Changes (C.meaning changing.now) self.old (place_of frame name.now (option_copied index.entry)) self.new
            answer) }
        ensures frames { length self.new ≡ length self.old }
    {
        if index.is_none() {
            if let Some(made) = self.frames[frame as usize].change(name, changing)? {
                return Ok(Ok(made));
            }
        }
        self.change_linked(frame, name, index, changing)
    }

    // The same, of a name that may be a link or missing.
    #[inline(never)]
    fn change_linked<C: Changing>(
        &mut self,
        frame: u64,
        name: &Text,
        index: Option<&Text>,
        changing: &C,
    ) -> Result<Result<Made, VarFault>, NoMemory>
        requires { frame < length self.old }
        ensures changed { IfOk result (λ answer.
            Changes (C.meaning changing.now) self.old (place_of frame name.now (option_copied index.entry)) self.new
            answer) }
        ensures frames { length self.new ≡ length self.old }
    {
        let (number, found) = match self.find(frame, name, index)? {
            Ok(found) => found,
            Err(fault) => return Ok(Err(fault)),
        };
        let answer = self.frames[number].change_at(&found, changing)?;
        Ok(answer.ok_or(VarFault::IsArray))
    }

    /// Makes a name a link to what another name stands for after its own links (upvar(n)). A name that is a link is
    /// linked anew. A link makes no variable.
    ///
    /// `NoMemory` if memory for it is refused; then nothing has changed.
    pub fn link(
        &mut self,
        frame: u64,
        name: &Text,
        other: u64,
        other_name: &Text,
        other_index: Option<&Text>,
    ) -> Result<Linked, NoMemory>
        requires there { frame < length self.old }
        requires lower { other ≤ frame }
        ensures linked { IfOk result (λ answer.
            Links self.old frame name.now (place_of other other_name.now (option_copied other_index.entry)) self.new
            answer) }
        ensures unchanged { OnErr result (self.new ≡ self.old) }
    {
        let frames = self.frames.as_slice();
        let variable = Spot {
            frame: other,
            name: other_name,
            index: None,
            hint: 0,
        };
        let whole = follow(frames, variable);
        let stands = follow(
            frames,
            Spot {
                index: other_index,
                ..variable
            },
        );
        let answer = link_answer(frames, frame, name, whole, stands);
        if let Linked::Yes = answer {
            let to = owned(stands)?;
            let name = name.copy()?;
            put_link(self.frames.as_mut_slice(), frame, name, to)?;
        }
        Ok(answer)
    }

    /// The indices of an array, in order of insertion (array(n), names); None if the name is no array.
    ///
    /// `NoMemory` if memory for them is refused.
    pub fn names(&self, frame: u64, array: &Text) -> Result<Option<Texts>, NoMemory>
        requires { frame < length self.now }
        ensures { IfOk result (λ names. HasNames self.now (place_of frame array.now None) names) }
    {
        let frames = self.frames.as_slice();
        let spot = follow(
            frames,
            Spot {
                frame,
                name: array,
                index: None,
                hint: 0,
            },
        );
        match spot {
            Some(
                Spot {
                    frame,
                    name,
                    index: None,
                    ..
                },
            ) => frame_in(frames, frame).names(name),
            _ => Ok(None),
        }
    }

    /// How many elements an array has (array(n), size); None if the name is no array.
    pub fn size(&self, frame: u64, array: &Text) -> Option<usize>
        requires { frame < length self.now }
        ensures { HasSize self.now (place_of frame array.now None) result }
    {
        let frames = self.frames.as_slice();
        let spot = follow(
            frames,
            Spot {
                frame,
                name: array,
                index: None,
                hint: 0,
            },
        );
        match spot {
            Some(
                Spot {
                    frame,
                    name,
                    index: None,
                    ..
                },
            ) => frame_in(frames, frame).size(name),
            _ => None,
        }
    }

    /// Whether a name and another one in the global frame stand for the same variable or element.
    pub fn same(
        &self,
        frame: u64,
        name: &Text,
        index: Option<&Text>,
        other: &Text,
        other_index: Option<&Text>,
    ) -> bool
        requires { frame < length self.now }
        ensures { AreSame self.now (place_of frame name.now (option_copied index.entry))
            (place_of 0 other.now (option_copied other_index.entry)) result }
    {
        let frames = self.frames.as_slice();
        let stands = follow(
            frames,
            Spot {
                frame,
                name,
                index,
                hint: 0,
            },
        );
        let other = Spot {
            frame: 0,
            name: other,
            index: other_index,
            hint: 0,
        };
        is_same(stands, follow(frames, other))
    }

    /// What the value of a name is read as, with the faults of `read`. No text changes.
    ///
    /// `NoMemory` if memory is refused.
    pub(crate) fn read_as<R: Reading>(
        &mut self,
        frame: u64,
        name: &Text,
        index: Option<&Text>,
        reading: &R,
    ) -> Result<Result<R::Answer, VarFault>, NoMemory>
        requires { frame < length self.old }
        ensures answer { IfOk result (λ answer.
            ReadsAs (R.meaning reading.now) self.old (place_of frame name.now (option_copied index.entry)) answer) }
        ensures same { self.new ≡ self.old }
    {
        let (number, found) = match self.find(frame, name, index)? {
            Ok(found) => found,
            Err(fault) => return Ok(Err(fault)),
        };
        let answer = self.frames[number].read_at(&found, reading)?;
        Ok(answer.ok_or(VarFault::IsArray))
    }

    // The frame of what a name stands for, and which of its variables and elements that is.
    fn find(
        &self,
        frame: u64,
        name: &Text,
        index: Option<&Text>,
    ) -> Result<Result<(usize, Found), VarFault>, NoMemory>
        requires { frame < length self.now }
        ensures { IfOk result (FindsAt self.now (place_of frame name.now (option_copied index.entry))) }
    {
        let frames = self.frames.as_slice();
        let spot = follow(
            frames,
            Spot {
                frame,
                name,
                index,
                hint: 0,
            },
        );
        find_spot(frames, index, spot)
    }
}

// A frame with no variables: the spare one, if there is one.
fn taken_or_new(alloc: Global, spare: &mut Option<Frame>) -> Frame
    requires spare { IfSome spare.old (λ frame. frame ≡ []) }
    ensures empty { result ≡ [] }
    ensures taken { spare.new ≡ None }
{
    match spare.take() {
        Some(frame) => frame,
        None => Frame::new(alloc),
    }
}

// The value of a name that may be a link or missing.
#[inline(never)]
fn read_linked<'a>(
    frames: &'a [Frame],
    frame: u64,
    name: &Text,
    index: Option<&Text>,
) -> Result<&'a Value, VarFault>
    requires ends { LinksEnd frames.now }
    requires there { frame < length frames.now }
    ensures read { Reads frames.now (place_of frame name.now (option_copied index.entry)) (lent_text result) }
{
    let spot = follow(
        frames,
        Spot {
            frame,
            name,
            index,
            hint: 0,
        },
    );
    read_spot(frames, index, spot)
}

// Where what a name stands for is looked for first.
fn hint_of(spot: Option<Spot>) -> usize {
    match spot {
        Some(spot) => spot.hint,
        None => 0,
    }
}

// The value of what a name with this index, or without, stands for.
fn read_spot<'a>(
    frames: &'a [Frame],
    index: Option<&Text>,
    spot: Option<Spot<'_>>,
) -> Result<&'a Value, VarFault>
    requires { IfSome spot (λ spot. spot.frame < length frames.now) }
    ensures { lent_text result ≡ reading_at frames.now (option_copied index.entry) (option_map place_at spot.entry) }
{
    let Some(spot) = spot else {
        return Err(VarFault::NotArray);
    };
    frame_in(frames, spot.frame).read(spot.name, spot.hint, spot.index, missing(index, spot.index))
}

// Where the value is of what a name with this index, or without, stands for.
fn find_spot(
    frames: &[Frame],
    index: Option<&Text>,
    spot: Option<Spot>,
) -> Result<Result<(usize, Found), VarFault>, NoMemory>
    requires { IfSome spot (λ spot. spot.frame < length frames.now) }
    ensures { IfOk result (IsFound frames.now (option_copied index.entry) (option_map place_at spot.entry)) }
{
    let Some(spot) = spot else {
        return Ok(Err(VarFault::NotArray));
    };
    let frame = frame_in(frames, spot.frame);
    let missing = missing(index, spot.index);
    match frame.find(spot.name, spot.hint, spot.index, missing)? {
        Ok(found) => Ok(Ok((spot.frame as usize, found))),
        Err(fault) => Ok(Err(fault)),
    }
}

// Writes a value to a place that is no link.
fn write_place(
    frames: &mut [Frame],
    place: Place,
    hint: usize,
    value: Value,
) -> Result<Written, NoMemory>
    requires there { place.frame < length frames.old }
    requires ends { LinksEnd frames.old }
    ensures written { IfOk result (λ answer.
        Puts (frames_after_write frames.old (Some place) value) frames.old frames.new answer) }
    ensures unchanged { OnErr result (frames.new ≡ frames.old) }
    ensures ends { LinksEnd frames.new }
{
    let Place { frame, name, index } = place;
    frames[frame as usize].write(name, hint, index, value)
}

// The answer of a link from a name to what another stands for; `whole` is what that stands for without its index.
fn link_answer(
    frames: &[Frame],
    frame: u64,
    name: &Text,
    whole: Option<Spot>,
    stands: Option<Spot>,
) -> Linked
    requires { frame < length frames.now }
    ensures { result ≡ link_answer frames.now frame name.now (option_map place_at whole.entry)
        (option_map place_at stands.entry) }
{
    if is_variable(frame, name, stands) {
        Linked::Itself
    } else if frame_in(frames, frame).is_set(name) || is_of(frame, name, whole) {
        Linked::Exists
    } else {
        Linked::Yes
    }
}

// Makes a name a link.
fn put_link(frames: &mut [Frame], frame: u64, name: Text, to: Option<Place>) -> Result<(), NoMemory>
    requires there { frame < length frames.old }
    requires ends { LinksEnd frames.old }
    requires free { CanLink frames.old frame name to }
    ensures put { OnOk result
        (frames.new ≡ with_frame frames.old frame (with (frame_at frames.old frame) name (Link to))) }
    ensures unchanged { OnErr result (frames.new ≡ frames.old) }
    ensures ends { LinksEnd frames.new }
{
    frames[frame as usize].put_link(name, to)
}
