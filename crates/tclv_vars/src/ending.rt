// The end of all frames but the global one, and of those behind some.
ghost use Rattle.std.specs.Prelude.{◌≡◌, ◌+◌, ◌<◌, ◌≤◌, length};
ghost use Rattle.tclv_vars.specs.Clearing.{last_ended, ended_behind, left_behind, back_in, outermost, outermost_texts, without_names, IsOutermost, Tied};
ghost use Rattle.tclv_vars.specs.Scoping.{last_names};

use crate::variables::Vars;
use tclv_value::Store;

impl Vars {
    /// Ends all frames but the global one, the last first, each as `pop_frame` does, whichever frame
    /// is current. The global one is current then. Takes no memory. Source: proc(n), uplevel(n).
    pub fn end_frames(&mut self, store: &mut Store)
        ensures ended { self.new ≡ outermost self.old }
        ensures texts { store.new.cells ≡ outermost_texts self.old store.old.cells }
        ensures global { IsOutermost self.new }
        ensures stack { store.new.stack ≡ store.old.stack }
        ensures tied { Tied self.old store.old.cells → Tied self.new store.new.cells }
    {
        self.end_behind(store, 1);
        self.use_frame(0);
    }

    /// Ends the frames behind the first `count`, the last first, each as `pop_frame` does, whichever
    /// frame is current. Then the frame of that number is current, where it is there. Takes no memory.
    /// Source: proc(n), uplevel(n).
    pub fn back_to_frame(&mut self, store: &mut Store, count: usize, frame: usize)
        requires { 0 < count }
        ensures ended { self.new ≡ back_in count frame self.old }
        ensures texts { store.new.cells ≡ left_behind count self.old store.old.cells }
        ensures stack { store.new.stack ≡ store.old.stack }
        ensures tied { Tied self.old store.old.cells → Tied self.new store.new.cells }
    {
        self.end_behind(store, count);
        if frame < self.frame_count() {
            self.use_frame(frame);
        }
    }

    // Ends the frames behind the first `count`, the last first.
    fn end_behind(&mut self, store: &mut Store, count: usize)
        requires { 0 < count }
        ensures ended { self.new ≡ ended_behind count self.old }
        ensures texts { store.new.cells ≡ left_behind count self.old store.old.cells }
        ensures few { length self.new.scopes.frames ≤ count }
        ensures some { 0 < length self.new.scopes.frames }
        ensures stack { store.new.stack ≡ store.old.stack }
        ensures tied { Tied self.old store.old.cells → Tied self.new store.new.cells }
    {
        while self.frame_count() > count {
            self.end_last(store);
        }
    }

    // Ends the last frame, whichever is current.
    fn end_last(&mut self, store: &mut Store)
        requires { 1 < length self.old.scopes.frames }
        ensures ended { self.new ≡ last_ended self.old }
        ensures texts { store.new.cells ≡ without_names store.old.cells self.old.contents (last_names self.old.scopes) }
        ensures fewer { length self.new.scopes.frames + 1 ≡ length self.old.scopes.frames }
        ensures stack { store.new.stack ≡ store.old.stack }
        ensures tied { Tied self.old store.old.cells → Tied self.new store.new.cells }
    {
        self.use_frame(self.frame_count() - 1);
        self.pop_frame(store);
    }
}
