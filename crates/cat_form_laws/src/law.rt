//! What holds of all that the real catalogue keeps. Each law is the contract of a function whose body does nothing.
ghost use Rattle.std.specs.Prelude.{◌≡◌, ◌<◌, ◌≤◌, ◌^◌, IsTrue, List, Ok, Some, codes, option_and_then, true, ℕ};
ghost use Rattle.cat_form_laws.specs.Documents.{IsDocumentOf};
ghost use Rattle.cat_form_laws.specs.Ready.{HasProperTrees};
ghost use Rattle.cat_form_laws.specs.Real.{real_forms};
ghost use Rattle.cat_kinds.specs.Kinds.{relations_of};
ghost use Rattle.cat_layers.specs.Layered.{entity_relations, layered};
ghost use Rattle.cat_session_lines.specs.Lines.{line_of};
ghost use Rattle.cat_session_lines.specs.Ready.{IsReady};
ghost use Rattle.cat_session_lines.specs.declared.line.Line.TheVariants.{Mutate};
ghost use Rattle.cat_session_lines.specs.declared.line.Line.{Line};
ghost use Rattle.cat_io.specs.Runs.{after_lines};
ghost use Rattle.cat_io.specs.Word.{Word};
ghost use Rattle.cat_model.specs.Catalogue.{parts, row_at, work};
ghost use Rattle.cat_model.specs.Formed.{Formed, IsFormedGiven, IsWorkOf};
ghost use Rattle.cat_model.specs.Given.{given};
ghost use Rattle.cat_model.specs.Sound.{AreSmall, Sound};
ghost use Rattle.cat_model.specs.declared.types.Orphan.{Orphan};
ghost use Rattle.cat_model.specs.declared.types.ProviderInputs.{ProviderInputs};
ghost use Rattle.cat_model.specs.declared.types.Record.{Record};
ghost use Rattle.cat_model.specs.declared.types.Row.{Row};
ghost use Rattle.cat_model.specs.declared.types.Settings.{Settings};
ghost use Rattle.cat_model.specs.declared.types.State.{State};
ghost use Rattle.cat_layers.specs.Forms.{IsOffer, IsProcessed};
ghost use Rattle.cat_types.specs.Names.{is_name, is_shelf_name};
ghost use Rattle.cat_types.specs.Reference.{described};
ghost use Rattle.cat_stitch.specs.Document.{annotation_in, document, relations_shown, status_shown};
ghost use Rattle.cat_stitch.specs.Uid.{uid};
ghost use Rattle.cat_session_model.specs.Program.{session_start};
ghost use Rattle.cat_session_model.specs.Session.{session_after};
ghost use Rattle.cat_tree.specs.Ask.{child_of};
ghost use Rattle.cat_tree.specs.Data.{Data, words};
ghost use Rattle.cat_collections.specs.Table.{Text, get};
ghost use Rattle.cat_types.specs.declared.input.Mutation.{Mutation};
ghost use Rattle.cat_types.specs.declared.input.Offered.{Offered};
ghost use Rattle.cat_types.specs.declared.parts.Parts.{Parts};
ghost use Rattle.cat_types.specs.declared.work.Output.{Output};
ghost use Rattle.cat_types.specs.declared.work.Work.{Work};

use cat_stitch::laws::{shows_the_number, shows_the_parts};

/// The command that a line is by the definition of lines has what the reader of lines promises: a provider's or
/// shelf's name is one, a mutation is well-formed, a moment fits; and the keys of the maps in a mutation's trees rise.
pub fn lines_are_ready()
    ensures ready { (bytes : List ℕ) (line : Line) → line_of bytes ≡ Ok line → IsReady line }
    ensures proper { (bytes : List ℕ) (p : Text) (m : Mutation) → line_of bytes ≡ Ok (Mutate p m) → HasProperTrees m }
{}

/// What a ready mutation gives has its form; and so has all that is kept after any lines, and so after every prefix of
/// the lines of an input, whatever the settings are and wherever memory lacks. The counters are small there, and each
/// document that is stored, also where it is out of date, is that of a processed entity of its reference.
pub fn real_forms_are_kept()
    ensures given { (p : Text) (m : Mutation) → IsReady (Mutate p m) → HasProperTrees m → IsFormedGiven real_forms p (given p m) }
    ensures sessions { (settings : Settings) (lines : List (List ℕ)) (words : List Word) → Formed real_forms (after_lines (session_after layered settings) session_start lines words).state }
    ensures small { (settings : Settings) (lines : List (List ℕ)) (words : List Word) → AreSmall (after_lines (session_after layered settings) session_start lines words).state }
    ensures documents { (settings : Settings) (lines : List (List ℕ)) (words : List Word) (r : Text) (d : Data) → get (after_lines (session_after layered settings) session_start lines words).state.documents r ≡ Some d → IsDocumentOf d r }
{}

/// What the forms come to, where all that is kept has its form: a provider has a provider's name and a serial of
/// 1 to 2^53 - 1, a shelf name is one, each item, each row and each offer may stand under its reference, a work is that of
/// an offer which may, and each output, each orphan and so the parts of each document have a processed entity of their
/// reference.
pub fn forms_come_to()
    ensures names { (m : State) (p : Text) (x : ProviderInputs) → Formed real_forms m → get m.providers p ≡ Some x → IsTrue (is_name p) }
    ensures serials { (m : State) (p : Text) (x : ProviderInputs) → Formed real_forms m → get m.providers p ≡ Some x → (1 ≤ x.serial) × (x.serial < 2 ^ 53) }
    ensures shelf { (m : State) (name text : Text) → Formed real_forms m → get m.shelf name ≡ Some text → IsTrue (is_shelf_name name) }
    ensures items { (m : State) (p : Text) (x : ProviderInputs) (r : Text) (y : Offered) → Formed real_forms m → get m.providers p ≡ Some x → get x.items r ≡ Some y → IsOffer y r }
    ensures rows { (m : State) (a : ℕ) (row : Row) → Sound layered m → Formed real_forms m → row_at m.rows a ≡ Some row → IsOffer row.offered row.reference }
    ensures offers { (m : State) (r : Text) (x : Record) (output : Output) (q : Text) (y : Offered) → Formed real_forms m → get m.records r ≡ Some x → x.output ≡ Some output → get output.offers q ≡ Some y → IsOffer y q }
    ensures entities { (m : State) (r : Text) (x : Record) (output : Output) → Formed real_forms m → get m.records r ≡ Some x → x.output ≡ Some output → IsProcessed output.entity r }
    ensures works { (m : State) (r : Text) (w : Work) → Sound layered m → Formed real_forms m → work layered m r ≡ Some w → IsWorkOf real_forms m r w }
    ensures parts { (m : State) (r : Text) (p : Parts) → Sound layered m → AreSmall m → Formed real_forms m → parts layered m r ≡ Some p → IsProcessed p.entity r × (p.number < 2 ^ 59) }
    ensures orphans { (m : State) (r : Text) (x : Orphan) → Formed real_forms m → get m.orphans r ≡ Some x → IsProcessed x.entity r }
{}

/// The document of a processed entity is a descriptor of its reference, shows just the relations and issues of its parts
/// and the unique id of its number, and for an orphan the annotation that says so; and the relations of such an entity
/// are all that its reference fields state. So nothing of it is left out for want of a map.
pub fn documents_are_whole()
    ensures reference { (p : Parts) (r : Text) → IsProcessed p.entity r → described (document p) ≡ Ok r }
    ensures relations { (p : Parts) (r : Text) → IsProcessed p.entity r → child_of (codes "relations") (document p) ≡ Some (relations_shown p.relations) }
    ensures status { (p : Parts) (r : Text) → IsProcessed p.entity r → child_of (codes "status") (document p) ≡ status_shown p.issues }
    ensures id { (p : Parts) (r : Text) → IsProcessed p.entity r → option_and_then (child_of (codes "uid")) (child_of (codes "metadata") (document p)) ≡ Some (words (uid p.number)) }
    ensures orphan { (p : Parts) (r : Text) → IsProcessed p.entity r → p.orphan ≡ true → annotation_in (codes "backstage.io/orphan") (document p) ≡ Some (words (codes "true")) }
    ensures stated { (t : Data) (r : Text) → IsProcessed t r → entity_relations t r ≡ relations_of t r }
{
    shows_the_parts();
    shows_the_number();
}
