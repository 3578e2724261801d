//! Laws about the definitions, each proved as the contract of a function that does nothing.
ghost use Rattle.std.specs.Prelude.{◌<◌, Option, length};
ghost use Rattle.std.specs.Option.{option_copied};
ghost use Rattle.tt_vars.specs.declared.variable.Place.{Place};
ghost use Rattle.tt_vars.specs.Links.{StandsFor, StandsOnceLaw, place_of};

use crate::Vars;
use tt_text::Text;

/// Following links comes to an end: each name stands for a variable, an element or nothing.
pub fn each_name_stands_for_something(vars: &Vars, frame: u64, name: &Text, index: Option<&Text>)
    requires { frame < length vars.now }
    ensures { (stands : Option Place) ×
        StandsFor vars.now (place_of frame name.now (option_copied index.entry)) stands }
{
    let _ = vars.read(frame, name, index);
}

/// No name stands for two things.
pub fn no_name_stands_for_two_things()
    ensures { StandsOnceLaw }
{}
