//! What holds of every document.
ghost use Rattle.std.specs.Prelude.{◌≡◌, ◌^◌, ◌<◌, ℕ, List, true, false, Some, option_and_then, bytes_eq, codes};
ghost use Rattle.cat_types.specs.Reference.{is_map};
ghost use Rattle.cat_tree.specs.Ask.{child_of};
ghost use Rattle.cat_tree.specs.Data.{Data, words};
ghost use Rattle.cat_tree.specs.Proper.{IsProper};
ghost use Rattle.cat_types.specs.declared.parts.Parts.{Parts};
ghost use Rattle.cat_stitch.specs.Document.{annotation_in, document, relations_shown, status_shown};
ghost use Rattle.cat_stitch.specs.Uid.{uid};

/// The document of an entity that is a map shows just the relations of its parts, and a status exactly where there are
/// issues; and it shows every other field but the metadata as the entity has it.
pub fn shows_the_parts()
    ensures relations { (p : Parts) → is_map p.entity ≡ true
        → child_of (codes "relations") (document p) ≡ Some (relations_shown p.relations) }
    ensures status { (p : Parts) → is_map p.entity ≡ true → IsProper p.entity
        → child_of (codes "status") (document p) ≡ status_shown p.issues }
    ensures others { (p : Parts) (key : List ℕ) → bytes_eq key (codes "metadata") ≡ false
        → bytes_eq key (codes "relations") ≡ false → bytes_eq key (codes "status") ≡ false
        → child_of key (document p) ≡ child_of key p.entity }
{}

/// Where an entity has a map of metadata, its document shows there the unique id of its number, and for an orphan the
/// annotation that says so, unless the annotations are no map.
pub fn shows_the_number()
    ensures id { (p : Parts) (metadata : Data) → child_of (codes "metadata") p.entity ≡ Some metadata → is_map metadata ≡ true
        → option_and_then (child_of (codes "uid")) (child_of (codes "metadata") (document p)) ≡ Some (words (uid p.number)) }
    ensures orphan { (p : Parts) (metadata annotations : Data) → child_of (codes "metadata") p.entity ≡ Some metadata
        → is_map metadata ≡ true → child_of (codes "annotations") metadata ≡ Some annotations → is_map annotations ≡ true
        → p.orphan ≡ true → annotation_in (codes "backstage.io/orphan") (document p) ≡ Some (words (codes "true")) }
{}

/// Different numbers below 2^60 have different unique ids.
pub fn unique_ids_differ()
    ensures { (a b : ℕ) → a < 2 ^ 60 → b < 2 ^ 60 → uid a ≡ uid b → a ≡ b }
{}
