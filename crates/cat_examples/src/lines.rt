//! The readers on single texts: which lines a text has, which tree a JSON text is, and which command a line is.
ghost use Rattle.std.specs.Prelude.{◌≡◌, true, [], ◌∷◌, None, Ok, Err, codes, pos, negsuc};
ghost use Rattle.cat_tree.specs.Data.{null, flag, whole, words, list, dict, items_of, members_of};
ghost use Rattle.cat_tree.specs.declared.read.TreeFault.TheVariants.{Fraction, Syntax};
ghost use Rattle.cat_types.specs.declared.fault.RefFault.TheVariants.{NoKind};
ghost use Rattle.cat_types.specs.declared.input.Mutation.TheVariants.{Full, Delta};
ghost use Rattle.cat_inputs.specs.Reading.{tree_reading};
ghost use Rattle.cat_inputs.specs.declared.fault.InputFault.TheVariants.{Json, NoRef, Shape};
ghost use Rattle.cat_inputs.specs.declared.fault.Place.TheVariants.{EntityRefs};
ghost use Rattle.cat_session_lines.specs.Lines.{line_of};
ghost use Rattle.cat_session_lines.specs.declared.fault.LineFault.TheVariants.{BadWord, BadArguments, Input, Query, Reference};
ghost use Rattle.cat_query.specs.declared.ask.Ask.TheVariants.{Get, Many, Quiet};
ghost use Rattle.cat_query.specs.declared.fault.QueryFault.TheVariants.{BadLimit};
ghost use Rattle.cat_session_lines.specs.declared.line.Line.TheVariants.{Ask, Mutate, ShelfPut, Clock, Finish, Settle};
ghost use Rattle.cat_io.specs.Lines.{lines};

/// An LF ends a line, one CR before it doesn't belong to the line, and a last line needs no LF.
pub fn lines_are_cut()
    ensures both { lines (codes "settle\r\nquiet") ≡ codes "settle" ∷ codes "quiet" ∷ [] }
    ensures empty { lines (codes "\n\r") ≡ [] ∷ codes "\r" ∷ [] }
{}

/// A command that has no arguments is its word alone, and a line that begins with no command's word is none.
pub fn words_stand_alone()
    ensures settle { line_of (codes "settle") ≡ Ok Settle }
    ensures settle_now { line_of (codes "settle now") ≡ Err BadArguments }
    ensures settled { line_of (codes "settled") ≡ Err BadWord }
    ensures empty { line_of [] ≡ Err BadWord }
{}

/// A reference has a kind, has the namespace `default` where it names none, and is folded to lower case.
pub fn references_are_full()
    ensures get { line_of (codes "get component:web") ≡ Ok (Ask (Get (codes "component:default/web"))) }
    ensures folded { line_of (codes "get API:Team-A/Orders") ≡ Ok (Ask (Get (codes "api:team-a/orders"))) }
    ensures no_kind { line_of (codes "get web") ≡ Err BadArguments }
    ensures two_names { line_of (codes "get component:default/web/x") ≡ Err BadArguments }
{}

/// A number is decimal digits, and a moment is below 2^53.
pub fn numbers_are_decimal()
    ensures clock { line_of (codes "clock 60000") ≡ Ok (Clock 60000) }
    ensures word { line_of (codes "clock x") ≡ Err BadArguments }
    ensures late { line_of (codes "clock 9007199254740992") ≡ Err BadArguments }
    ensures finish { line_of (codes "finish 12") ≡ Ok (Finish 12) }
{}

/// A tree is a JSON value whose numbers are whole: its keys are in byte order, of a key that stands twice the last value
/// counts, and a number that no float holds is no JSON.
pub fn trees_are_read()
    ensures sorted { tree_reading (codes " {\"b\" : -7, \"a\" : [true, null]}")
        ≡ Ok (dict (members_of ((codes "a", list (items_of (flag true ∷ null ∷ []))) ∷ (codes "b", whole (negsuc 6)) ∷ []))) }
    ensures twice { tree_reading (codes "{\"a\":1.5,\"a\":1}") ≡ Ok (dict (members_of ((codes "a", whole (pos 1)) ∷ []))) }
    ensures fraction { tree_reading (codes "1.5") ≡ Err Fraction }
    ensures large { tree_reading (codes "1e999") ≡ Err Syntax }
{}

/// The body of a mutation is JSON with the fields of its form, and each of its items names an entity.
pub fn bodies_are_mutations()
    ensures full { line_of (codes "full git {\"serial\":1,\"entities\":[{\"entity\":{\"kind\":\"Group\",\"metadata\":{\"name\":\"A\"}}}]}")
        ≡ Ok (Mutate (codes "git") (Full 1 (record {
          reference = codes "group:default/a";
          key = None;
          tree = dict (members_of (
              (codes "kind", words (codes "Group"))
              ∷ (codes "metadata", dict (members_of ((codes "name", words (codes "A")) ∷ [])))
              ∷ []));
        } ∷ []))) }
    ensures delta { line_of (codes "delta git {\"serial\":2,\"added\":[],\"removed\":[\"group:a\"]}")
        ≡ Ok (Mutate (codes "git") (Delta 2 [] (codes "group:default/a" ∷ []))) }
    ensures no_kind { line_of (codes "delta git {\"serial\":2,\"added\":[],\"removed\":[\"a\"]}") ≡ Err (Input (NoRef 0 NoKind)) }
    ensures no_json { line_of (codes "full git {") ≡ Err (Input (Json Syntax)) }
{}

/// What is asked for by a query stands after one space, and a list or page may have none; facets want one.
pub fn questions_are_read()
    ensures quiet { line_of (codes "quiet") ≡ Ok (Ask Quiet) }
    ensures no_query { line_of (codes "facets") ≡ Err BadArguments }
    ensures bad_limit { line_of (codes "page limit=0") ≡ Err (Query BadLimit) }
    ensures many { line_of (codes "many [\"api:a\", \"Group:b/C\"]") ≡ Ok (Ask (Many (codes "api:default/a" ∷ codes "group:b/c" ∷ []) [])) }
    ensures no_reference { line_of (codes "many [\"api:a\", \"b\"]") ≡ Err (Reference 1) }
    ensures no_texts { line_of (codes "many {}") ≡ Err (Input (Shape EntityRefs)) }
{}

/// A shelf text is put under the name of a target, and may be empty.
pub fn shelf_texts_are_named()
    ensures put { line_of (codes "put file:/r.json []") ≡ Ok (ShelfPut (codes "file:/r.json") (codes "[]")) }
    ensures empty { line_of (codes "put file:/r.json ") ≡ Ok (ShelfPut (codes "file:/r.json") []) }
    ensures no_name { line_of (codes "put r.json []") ≡ Err BadArguments }
{}
