ghost use Rattle.std.specs.Prelude.{◌≡◌, List, [], ◌∷◌, ◌++◌, None, Some, IfOk, OnOk, MatchOption, false, true, ⊤};
ghost use Rattle.std.specs.Borrow.{sem};
ghost use mathlib.Core.Option.{none};
ghost use denote.Follow.{follows_so};
ghost use Rattle.jvm_model.specs.World.{World, at, put, size, make_object};
ghost use Rattle.jvm_model.specs.{declared.program.Program.Program, declared.values.Touch.Touch, Access.read_of, Access.write_of, Access.made, View.Exists};
ghost use Rattle.jvm_model.specs.Classes.{blank};
ghost use Rattle.jvm_model.specs.declared.values.Location.TheVariants as place;
ghost use Rattle.vm_mem.specs.{Trace.Trace, Trace.Extends, Trace.next_test, Stores.place_in, Stores.found_in, Stores.put_in};

use et_base::{NoMemory, Units};
use jvm_model::{Head, InitState, Value};
use sim_store::Part;

/// What stands for a world and follows the touches of the tests that run on it.
///
/// Each call works at one location, which has to be there, and adds its touch to what is followed; `make` adds those of
/// a new object. The only error is want of memory; after it a memory is only dropped or reset, and its program stays.
pub trait Memory {
    /// The program that it was opened for.
    ghost program: { Self → Program };

    /// The world that it stands for.
    ghost world: { Self → World };

    /// It follows these tests, of which the one that runs made these touches.
    ghost follows: { Self → Trace → List Touch → Type 0 };

    /// Another test begins.
    fn begin_test(&mut self, test: u32) -> Result<(), NoMemory>
        ensures of { program self.new ≡ program self.old }
        ensures kept { OnOk result (world self.new ≡ world self.old) }
        ensures told { OnOk result ((h : Trace) (ts : List Touch) → follows self.old h ts → follows self.new (next_test h ts test) []) };

    /// The value of a static.
    fn get_static(&mut self, field: u32) -> Result<Value, NoMemory>
        requires { Exists (world self.old) (place.Static field) }
        ensures gives { IfOk result (λ v. v ≡ at (world self.old) (place.Static field)) }
        ensures of { program self.new ≡ program self.old }
        ensures kept { OnOk result (world self.new ≡ world self.old) }
        ensures told { IfOk result (λ v. Extends follows self.old self.new (read_of (place.Static field) v ∷ [])) };

    /// Gives a static another value.
    fn put_static(&mut self, field: u32, v: Value) -> Result<(), NoMemory>
        requires { Exists (world self.old) (place.Static field) }
        ensures of { program self.new ≡ program self.old }
        ensures set { OnOk result (world self.new ≡ put (world self.old) (place.Static field) v) }
        ensures told { OnOk result (Extends follows self.old self.new (write_of (place.Static field) ∷ [])) };

    /// How far a class is initialised.
    fn get_init(&mut self, class: u32) -> Result<InitState, NoMemory>
        requires { Exists (world self.old) (place.Init class) }
        ensures gives { IfOk result (λ s. s ≡ at (world self.old) (place.Init class)) }
        ensures of { program self.new ≡ program self.old }
        ensures kept { OnOk result (world self.new ≡ world self.old) }
        ensures told { IfOk result (λ s. Extends follows self.old self.new (read_of (place.Init class) s ∷ [])) };

    /// Notes how far a class is initialised.
    fn put_init(&mut self, class: u32, s: InitState) -> Result<(), NoMemory>
        requires { Exists (world self.old) (place.Init class) }
        ensures of { program self.new ≡ program self.old }
        ensures set { OnOk result (world self.new ≡ put (world self.old) (place.Init class) s) }
        ensures told { OnOk result (Extends follows self.old self.new (write_of (place.Init class) ∷ [])) };

    /// The head of an object.
    fn head(&mut self, object: u64) -> Result<Head, NoMemory>
        requires { Exists (world self.old) (place.Head object) }
        ensures gives { IfOk result (λ x. x ≡ at (world self.old) (place.Head object)) }
        ensures of { program self.new ≡ program self.old }
        ensures kept { OnOk result (world self.new ≡ world self.old) }
        ensures told { IfOk result (λ x. Extends follows self.old self.new (read_of (place.Head object) x ∷ [])) };

    /// The value of an object's field.
    fn get_field(&mut self, object: u64, field: u32) -> Result<Value, NoMemory>
        requires { Exists (world self.old) (place.Field object field) }
        ensures gives { IfOk result (λ v. v ≡ at (world self.old) (place.Field object field)) }
        ensures of { program self.new ≡ program self.old }
        ensures kept { OnOk result (world self.new ≡ world self.old) }
        ensures told { IfOk result (λ v. Extends follows self.old self.new (read_of (place.Field object field) v ∷ [])) };

    /// Gives an object's field another value.
    fn put_field(&mut self, object: u64, field: u32, v: Value) -> Result<(), NoMemory>
        requires { Exists (world self.old) (place.Field object field) }
        ensures of { program self.new ≡ program self.old }
        ensures set { OnOk result (world self.new ≡ put (world self.old) (place.Field object field) v) }
        ensures told { OnOk result (Extends follows self.old self.new (write_of (place.Field object field) ∷ [])) };

    /// The value of an array's element.
    fn get_elem(&mut self, object: u64, index: u32) -> Result<Value, NoMemory>
        requires { Exists (world self.old) (place.Elem object index) }
        ensures gives { IfOk result (λ v. v ≡ at (world self.old) (place.Elem object index)) }
        ensures of { program self.new ≡ program self.old }
        ensures kept { OnOk result (world self.new ≡ world self.old) }
        ensures told { IfOk result (λ v. Extends follows self.old self.new (read_of (place.Elem object index) v ∷ [])) };

    /// Gives an array's element another value.
    fn put_elem(&mut self, object: u64, index: u32, v: Value) -> Result<(), NoMemory>
        requires { Exists (world self.old) (place.Elem object index) }
        ensures of { program self.new ≡ program self.old }
        ensures set { OnOk result (world self.new ≡ put (world self.old) (place.Elem object index) v) }
        ensures told { OnOk result (Extends follows self.old self.new (write_of (place.Elem object index) ∷ [])) };

    /// The text of a string or string builder, empty until one was written.
    fn get_text(&mut self, object: u64) -> Result<&Units, NoMemory>
        requires { Exists (world self.old) (place.Text object) }
        ensures gives { IfOk result (λ t. t.now ≡ at (world self.old) (place.Text object)) }
        ensures* told { sem 𝓛 (follows_so Self.row Self.row self.entry.ghost_name none (λ _ _. ⊤) (λ new. (program new ≡ program self.old) × OnOk result ((world new ≡ world self.old) × Extends follows self.old new (read_of (place.Text object) (at (world self.old) (place.Text object)) ∷ [])))) };

    /// Writes the text of a string or string builder.
    fn put_text(&mut self, object: u64, u: Units) -> Result<(), NoMemory>
        requires { Exists (world self.old) (place.Text object) }
        ensures of { program self.new ≡ program self.old }
        ensures set { OnOk result (world self.new ≡ put (world self.old) (place.Text object) u) }
        ensures told { OnOk result (Extends follows self.old self.new (write_of (place.Text object) ∷ [])) };

    /// Writes these units behind the text of a string or string builder.
    fn append_text(&mut self, object: u64, more: &[u16]) -> Result<(), NoMemory>
        requires { Exists (world self.old) (place.Text object) }
        ensures of { program self.new ≡ program self.old }
        ensures set { OnOk result (world self.new ≡ put (world self.old) (place.Text object)
            (at (world self.old) (place.Text object) ++ more.now)) }
        ensures told { OnOk result (Extends follows self.old self.new (write_of (place.Text object) ∷ [])) };

    /// The text of a file or property; none where there is none.
    fn get_store(&mut self, part: Part, name: &Units) -> Result<Option<&Units>, NoMemory>
        ensures gives { IfOk result (λ o. MatchOption o (found_in part (world self.old) name.now ≡ None) (λ t. found_in part (world self.old) name.now ≡ Some t.now)) }
        ensures* told { sem 𝓛 (follows_so Self.row Self.row self.entry.ghost_name none (λ _ _. ⊤) (λ new. (program new ≡ program self.old) × OnOk result ((world new ≡ world self.old) × Extends follows self.old new (record { write = false; location = place_in part name.now; gave = None } ∷ [])))) };

    /// Writes a file or property; `None` takes it away.
    fn put_store(&mut self, part: Part, name: Units, content: Option<Units>) -> Result<(), NoMemory>
        ensures of { program self.new ≡ program self.old }
        ensures set { OnOk result (world self.new ≡ put_in part (world self.old) name content) }
        ensures told { OnOk result (Extends follows self.old self.new (write_of (place_in part name) ∷ [])) };

    /// Makes a new object of a class or array type, with default cells and no text, and answers its place.
    fn make(&mut self, head: Head) -> Result<u64, NoMemory>
        ensures gives { IfOk result (λ o. o ≡ size (world self.old)) }
        ensures of { program self.new ≡ program self.old }
        ensures set { OnOk result (world self.new ≡ make_object (world self.old) (blank (program self.old) head)) }
        ensures told { OnOk result (Extends follows self.old self.new (made (size (world self.old)) (blank (program self.old) head))) };
}
