// The frames, the namespaces and their names.

use crate::parts::{Frame, Slot};
use crate::places::{Home, Place};
use crate::spares::Spares;
use std::alloc::Global;
use std::marker::Model;
use tclv_names::{Names, Numbered};
use tclv_text::NoMemory;

#[derive(Drop)]
pub struct Scopes {
    alloc: Global,
    frames: Vec<Frame>,
    current: usize,
    spaces: Numbered<Names<Slot>>,
    spares: Spares,
}

impl Model for Scopes {
    ghost use Rattle.tclv_vars.specs.Scoping.{Scoping, scoping_code};

    ghost Value = { Scoping };

    ghost coded = { scoping_code };

    ghost view = { λ a. record { frames = a.frames.items; current = a.current; spaces = a.spaces.map } };
}

impl Scopes {
    ghost use Rattle.std.specs.Prelude.{◌≡◌, ◌-◌, nat_lt, if◌then◌else◌, length, slice_get, None, Some, IsSome, IfOk, OnOk, OnErr};
    ghost use Rattle.std.specs.FinMap as map;
    ghost use Rattle.tclv_vars.specs.Scoping.{at_start, home, home_of, slot_of, with_name, has_names, without_name, without_space, level_of, caller_of, space_of, is_local_at, above, pushed, popped, last_names, at_frame, at_level};
    ghost use Rattle.tclv_vars.specs.declared.places.Home.TheVariants.{Local, Of};

    /// The global frame alone, in the global namespace, without a name.
    pub fn new(alloc: Global) -> Result<Scopes, NoMemory>
        ensures { IfOk result (λ s. s ≡ at_start) }
    {
        let mut frames = Vec::new(alloc);
        let global = Frame {
            level: 0,
            caller: 0,
            space: 0,
            local: false,
            names: Names::new(alloc),
        };
        let Ok(()) = frames.push(global) else {
            return Err(NoMemory);
        };
        Ok(Scopes {
            alloc,
            frames,
            current: 0,
            spaces: Numbered::new(alloc),
            spares: Spares::new(alloc),
        })
    }

    /// Where the names of a place stand: in the current frame where it is local, else in its namespace.
    pub fn home(&self, at: Place) -> Home
        ensures { result ≡ home self.now at }
    {
        match at {
            Place::Space(space) => Home::Of(space),
            Place::Frame => self.home_of(self.current),
        }
    }

    /// Where the names of a frame stand.
    pub fn home_of(&self, frame: usize) -> Home
        ensures { result ≡ home_of self.now frame }
    {
        match self.frames.get(frame) {
            Some(f) => {
                if f.local {
                    Home::Local(frame)
                } else {
                    Home::Of(f.space)
                }
            }
            None => Home::Local(frame),
        }
    }

    /// What the name stands for there. `None` where it stands for nothing.
    #[tactic(auto, using(crate::proofs::MapLemmas::absent))]
    pub fn slot(&self, home: Home, name: &[u8]) -> Option<Slot>
        ensures { result ≡ slot_of self.now home name.now }
    {
        match home {
            Home::Local(frame) => match self.frames.get(frame) {
                Some(f) => f.names.get(name),
                None => None,
            },
            Home::Of(space) => match self.spaces.get(space) {
                Some(names) => names.get(name),
                None => None,
            },
        }
    }

    /// Makes the name stand for the slot's cell. After `NoMemory` all is as before.
    pub fn put(&mut self, home: Home, name: &[u8], slot: Slot) -> Result<(), NoMemory>
        ensures put { OnOk result (self.new ≡ with_name self.old home name.now slot) }
        ensures refused { OnErr result (self.new ≡ self.old) }
    {
        match home {
            Home::Local(frame) => self.put_local(frame, name, slot),
            Home::Of(space) => self.put_shared(space, name, slot),
        }
    }

    fn put_local(&mut self, frame: usize, name: &[u8], slot: Slot) -> Result<(), NoMemory>
        ensures put { OnOk result (self.new ≡ with_name self.old (Local frame) name.now slot) }
        ensures refused { OnErr result (self.new ≡ self.old) }
    {
        let alloc = self.alloc;
        let Some(f) = self.frames.get_mut(frame) else {
            return Ok(());
        };
        f.names.put(alloc, name, slot)
    }

    fn put_shared(&mut self, space: u64, name: &[u8], slot: Slot) -> Result<(), NoMemory>
        ensures put { OnOk result (self.new ≡ with_name self.old (Of space) name.now slot) }
        ensures refused { OnErr result (self.new ≡ self.old) }
    {
        if self.spaces.get(space).is_some() {
            let mut names = self.spaces.replace(space, Names::new(self.alloc));
            let done = names.put(self.alloc, name, slot);
            self.spaces.replace(space, names);
            done?;
            return Ok(());
        }
        self.spaces.reserve(1)?;
        let mut names = Names::new(self.alloc);
        names.put(self.alloc, name, slot)?;
        self.spaces.put(space, names);
        Ok(())
    }

    /// Whether any names are kept there.
    pub fn has_names(&self, home: Home) -> bool
        ensures { result ≡ has_names self.now home }
    {
        match home {
            Home::Local(_) => true,
            Home::Of(space) => self.spaces.get(space).is_some(),
        }
    }

    /// Takes a name out. Takes no memory.
    pub fn take_name(&mut self, home: Home, name: &[u8])
        ensures { self.new ≡ without_name self.old home name.now }
    {
        match home {
            Home::Local(frame) => self.take_local(frame, name),
            Home::Of(space) => self.take_shared(space, name),
        }
    }

    fn take_local(&mut self, frame: usize, name: &[u8])
        ensures { self.new ≡ without_name self.old (Local frame) name.now }
    {
        let Some(f) = self.frames.get_mut(frame) else {
            return;
        };
        f.names.take_out(name);
    }

    fn take_shared(&mut self, space: u64, name: &[u8])
        ensures { self.new ≡ without_name self.old (Of space) name.now }
    {
        match self.spaces.get(space) {
            None => {}
            Some(_) => self.cut_space(space, name),
        }
    }

    fn cut_space(&mut self, space: u64, name: &[u8])
        requires there { IsSome (map.get self.old.spaces space) }
        ensures { self.new ≡ without_name self.old (Of space) name.now }
    {
        let mut names = self.spaces.replace(space, Names::new(self.alloc));
        names.take_out(name);
        self.spaces.replace(space, names);
    }

    /// Takes a namespace out, with its names. A local frame's names stay.
    pub fn take_space(&mut self, home: Home)
        ensures { self.new ≡ without_space self.old home }
    {
        match home {
            Home::Local(_) => {}
            Home::Of(space) => {
                self.spaces.take_out(space);
            }
        }
    }

    /// The number of the current frame, from 0, which is the global one.
    pub fn current(&self) -> usize
        ensures { result ≡ self.now.current }
    {
        self.current
    }

    /// How many frames there are, the global one among them.
    pub fn count(&self) -> usize
        ensures { result ≡ length self.now.frames }
    {
        self.frames.len()
    }

    /// The level of the current frame: 0 for the global one, and one above its caller's for each other.
    pub fn level(&self) -> usize
        ensures { result ≡ level_of self.now self.now.current }
    {
        match self.frames.get(self.current) {
            Some(f) => f.level,
            None => 0,
        }
    }

    /// The number of the current frame's namespace.
    pub fn space(&self) -> u64
        ensures { result ≡ space_of self.now self.now.current }
    {
        match self.frames.get(self.current) {
            Some(f) => f.space,
            None => 0,
        }
    }

    /// Whether the current frame has local names.
    pub fn is_local(&self) -> bool
        ensures { result ≡ is_local_at self.now self.now.current }
    {
        match self.frames.get(self.current) {
            Some(f) => f.local,
            None => false,
        }
    }

    /// Puts a new frame on the others, which is current then. After `NoMemory` all is as before.
    ///
    /// It takes a name table of a frame that ended, if there is one. Room is made for the tables of
    /// all frames, so that none has to be thrown away as they end.
    pub fn push(&mut self, space: u64, local: bool) -> Result<(), NoMemory>
        ensures pushed { OnOk result (self.new ≡ pushed self.old space local) }
        ensures refused { OnErr result (self.new ≡ self.old) }
    {
        let level = self.level();
        if level == usize::MAX {
            return Err(NoMemory);
        }
        self.spares.reserve(self.frames.len())?;
        let frame = Frame {
            level: level + 1,
            caller: self.current,
            space,
            local,
            names: self.spares.take(self.alloc),
        };
        let number = self.frames.len();
        let Ok(()) = self.frames.push(frame) else {
            return Err(NoMemory);
        };
        self.current = number;
        Ok(())
    }

    fn pop(&mut self) -> Option<Frame>
        ensures last { result ≡ slice_get self.old.frames (length self.old.frames - 1) }
        ensures popped { self.new ≡ popped self.old }
    {
        let last = self.frames.pop();
        if let Some(f) = &last {
            self.current = f.caller;
        }
        last
    }

    /// Takes the last frame off, and gives its names. Its caller is current then.
    pub fn pop_names(&mut self) -> Names<Slot>
        ensures names { result ≡ last_names self.old }
        ensures popped { self.new ≡ popped self.old }
    {
        match self.pop() {
            Some(frame) => frame.names,
            None => Names::new(self.alloc),
        }
    }

    /// Keeps the emptied name table of a frame that ended, for the next one. Takes no memory.
    pub fn keep(&mut self, names: Names<Slot>)
        requires empty { names ≡ map.empty }
        ensures { self.new ≡ self.old }
    {
        self.spares.keep(names);
    }

    /// Makes the frame of this number current.
    pub fn use_frame(&mut self, frame: usize)
        ensures { self.new ≡ at_frame self.old frame }
    {
        self.current = frame;
    }

    /// The number of the frame that is so many calls above the current one.
    #[tactic(auto, using(crate::proofs::ScopeLemmas::above_step))]
    pub fn above(&self, calls: usize) -> usize
        ensures { result ≡ above self.now calls self.now.current }
    {
        let mut frame = self.current;
        let mut left = calls;
        while left > 0 {
            frame = self.caller_of(frame);
            left -= 1;
        }
        frame
    }

    fn caller_of(&self, frame: usize) -> usize
        ensures { result ≡ caller_of self.now frame }
    {
        match self.frames.get(frame) {
            Some(f) => f.caller,
            None => 0,
        }
    }

    /// Makes the frame of that level current, and gives the number of the one that was. `None`, and
    /// nothing changes, where the level is above the current one.
    pub fn use_level(&mut self, level: usize) -> Option<usize>
        ensures old { result ≡ (if nat_lt (level_of self.old self.old.current) level then None else Some self.old.current) }
        ensures current { self.new ≡ at_level self.old level }
    {
        let here = self.level();
        if here < level {
            return None;
        }
        let before = self.current;
        let frame = self.above(here - level);
        self.current = frame;
        Some(before)
    }
}
