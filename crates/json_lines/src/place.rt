//! Where a piece of a line stands: in which members and elements.
//!
//! The open objects and arrays need no memory. Those that stand as the path leads, counted from the outermost, have the
//! members and elements that the path names; of the first that does not, the number of the current element is kept; and
//! the others matter only by their count.

ghost use Rattle.std.specs.Prelude.{◌≡◌, ◌<◌, ◌≤◌, ◌+◌, ◌^◌, List, None, Some, [], ◌∷◌, drop, map};
ghost use Rattle.json_lines.specs.Inner.Tracked.{Tracks};
ghost use Rattle.json_lines.specs.Path.{PathStep, step_of};
ghost use Rattle.json_lines.specs.Pieces.{content};
ghost use Rattle.json_lines.specs.Places.{Frame, after, at_path, element, is_at, matches_at, named, object, passed};

use crate::path::Step;
use crate::piece::{begins_value, content, is_name};

/// The outermost object or array that does not stand as the path leads.
#[derive(Clone, Copy, Debug, PartialEq, Eq)]
pub enum Off {
    /// An object.
    Object,
    /// An array, with the number of its current element.
    Array(u64),
}

/// A place in a line.
#[derive(Clone, Copy, Debug, PartialEq, Eq)]
pub struct Place {
    /// How many objects and arrays are open.
    pub depth: usize,
    /// How many of them, from the outermost on, stand as the path leads.
    pub on: usize,
    /// The next one, if there is one.
    pub off: Off,
}

/// Whether the step with an index is the member with a name.
fn is_member(steps: &[Step<'_>], index: usize, name: &[u8]) -> bool
    ensures { result ≡ matches_at (map step_of steps.now) index (object (Some name.now)) }
{
    if index >= steps.len() {
        return false;
    }
    match steps[index] {
        Step::Member(wanted) => wanted == name,
        Step::Element(_) | Step::Every => false,
    }
}

/// Whether the step with an index leads to the element with a number.
fn is_element(steps: &[Step<'_>], index: usize, number: u64) -> bool
    ensures { result ≡ matches_at (map step_of steps.now) index (element number) }
{
    if index >= steps.len() {
        return false;
    }
    match steps[index] {
        Step::Member(_) => false,
        Step::Element(wanted) => u64::from(wanted) == number,
        Step::Every => true,
    }
}

impl Place {
    /// The place of the first piece.
    pub fn new() -> Place
        ensures { (steps : List PathStep) → Tracks steps [] result }
    {
        Place {
            depth: 0,
            on: 0,
            off: Off::Object,
        }
    }

    /// Whether the path leads to here.
    fn is_on_path(&self, steps: &[Step<'_>]) -> bool
        ensures { (frames : List Frame) → Tracks (map step_of steps.now) frames self.now
            → result ≡ at_path (map step_of steps.now) frames }
    {
        self.depth == steps.len() && self.on == self.depth
    }

    /// Whether a piece begins a value at the path.
    pub fn is_at(&self, steps: &[Step<'_>], piece: &[u8], rest: &[u8]) -> bool
        ensures { (frames : List Frame) → Tracks (map step_of steps.now) frames self.now
            → result ≡ is_at (map step_of steps.now) frames piece.now rest.now }
    {
        begins_value(piece, rest) && self.is_on_path(steps)
    }

    /// Enters an object.
    fn open_object(&mut self)
        requires { self.old.depth + 1 < 2 ^ 63 }
        ensures place { (steps : List PathStep) (frames : List Frame) → Tracks steps frames self.old
            → Tracks steps (object None ∷ frames) self.new }
        ensures depth { self.new.depth ≡ self.old.depth + 1 }
    {
        if self.on == self.depth {
            self.off = Off::Object;
        }
        self.depth += 1;
    }

    /// Enters an array.
    fn open_array(&mut self, steps: &[Step<'_>])
        requires { self.old.depth + 1 < 2 ^ 63 }
        ensures place { (frames : List Frame) → Tracks (map step_of steps.now) frames self.old
            → Tracks (map step_of steps.now) (element 0 ∷ frames) self.new }
        ensures depth { self.new.depth ≡ self.old.depth + 1 }
    {
        if self.on == self.depth {
            if is_element(steps, self.depth, 0) {
                self.on += 1;
            } else {
                self.off = Off::Array(0);
            }
        }
        self.depth += 1;
    }

    /// Leaves an object or an array.
    fn close(&mut self)
        ensures place { (steps : List PathStep) (frames : List Frame) → Tracks steps frames self.old
            → Tracks steps (drop 1 frames) self.new }
        ensures depth { self.new.depth ≤ self.old.depth }
    {
        if self.depth > 0 {
            self.depth -= 1;
            self.on = self.on.min(self.depth);
        }
    }

    /// Passes the comma after an element of an array or a member of an object.
    fn pass(&mut self, steps: &[Step<'_>])
        ensures place { (frames : List Frame) → Tracks (map step_of steps.now) frames self.old
            → Tracks (map step_of steps.now) (passed frames) self.new }
        ensures depth { self.new.depth ≡ self.old.depth }
    {
        if self.depth == 0 {
            return;
        }
        let index = self.depth - 1;
        if self.on == self.depth {
            if index < steps.len() {
                if let Step::Element(number) = steps[index] {
                    self.on = index;
                    self.off = Off::Array(u64::from(number).saturating_add(1));
                }
            }
        } else if self.on == index {
            if let Off::Array(number) = self.off {
                let next = number.saturating_add(1);
                if is_element(steps, index, next) {
                    self.on = self.depth;
                } else {
                    self.off = Off::Array(next);
                }
            }
        }
    }

    /// Passes the name of a member.
    fn pass_name(&mut self, steps: &[Step<'_>], name: &[u8])
        ensures place { (frames : List Frame) → Tracks (map step_of steps.now) frames self.old
            → Tracks (map step_of steps.now) (named name.now frames) self.new }
        ensures depth { self.new.depth ≡ self.old.depth }
    {
        if self.depth == 0 {
            return;
        }
        let index = self.depth - 1;
        if self.on < index {
            return;
        }
        if is_member(steps, index, name) {
            self.on = self.depth;
        } else {
            self.on = index;
            self.off = Off::Object;
        }
    }

    /// Passes a piece.
    pub fn pass_piece(&mut self, steps: &[Step<'_>], piece: &[u8], rest: &[u8])
        requires { self.old.depth + 1 < 2 ^ 63 }
        ensures place { (frames : List Frame) → Tracks (map step_of steps.now) frames self.old
            → Tracks (map step_of steps.now) (after frames piece.now rest.now) self.new }
        ensures depth { self.new.depth ≤ self.old.depth + 1 }
    {
        if piece.is_empty() {
            return;
        }
        if is_name(piece, rest) {
            return self.pass_name(steps, content(piece));
        }
        match piece[0] {
            b'{' => self.open_object(),
            b'[' => self.open_array(steps),
            b'}' | b']' => self.close(),
            b',' => self.pass(steps),
            _ => (),
        }
    }
}
