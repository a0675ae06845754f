//! Leases, orders and stitches over time: whole sessions from an empty catalogue on, each with what the program says to its lines.
ghost use Rattle.std.specs.Prelude.{◌≡◌, [], ◌∷◌, codes};
ghost use Rattle.cat_examples.specs.Sessions.{said, printed};

/// A record with a live lease isn't taken again; once the lease has lapsed it is, and then the first order is late and the
/// second one counts, once. An order that was never handed out is unknown.
/// The lines are those of examples/leases.session.
pub fn leases_lapse()
    ensures said { said (
        codes "full git {\"serial\":1,\"entities\":[{\"entity\":{\"apiVersion\":\"backstage.io/v1alpha1\",\"kind\":\"Component\",\"metadata\":{\"name\":\"web\"},\"spec\":{\"type\":\"service\",\"lifecycle\":\"production\",\"owner\":\"a\"}}}]}"
        ∷ codes "take"
        ∷ codes "take"
        ∷ codes "clock 60000"
        ∷ codes "take"
        ∷ codes "finish 1"
        ∷ codes "finish 2"
        ∷ codes "finish 2"
        ∷ codes "take"
        ∷ codes "finish 9"
        ∷ [])
        ≡ printed (
        codes "ok"
        ∷ codes "order 1 component:default/web"
        ∷ codes "none"
        ∷ codes "ok"
        ∷ codes "order 2 component:default/web"
        ∷ codes "late 2"
        ∷ codes "ok good"
        ∷ codes "late none"
        ∷ codes "none"
        ∷ codes "refused unknown"
        ∷ []) }
{}

/// A result is late where the text that its entity points to came after the order was handed out, and the record is due anew.
/// The lines are those of examples/late-result.session.
pub fn results_of_old_contents_are_late()
    ensures said { said (
        codes "full git {\"serial\":1,\"entities\":[{\"entity\":{\"apiVersion\":\"backstage.io/v1alpha1\",\"kind\":\"Location\",\"metadata\":{\"name\":\"root\"},\"spec\":{\"type\":\"file\",\"target\":\"/r.json\"}}}]}"
        ∷ codes "take"
        ∷ codes "put file:/r.json [{\"apiVersion\":\"backstage.io/v1alpha1\",\"kind\":\"Component\",\"metadata\":{\"name\":\"web\"},\"spec\":{\"type\":\"service\",\"lifecycle\":\"production\",\"owner\":\"a\"}}]"
        ∷ codes "finish 1"
        ∷ codes "state"
        ∷ codes "settle"
        ∷ [])
        ≡ printed (
        codes "ok"
        ∷ codes "order 1 location:default/root"
        ∷ codes "ok"
        ∷ codes "late none"
        ∷ codes "state records 1 orphans 0 due 1 leased 0 marked 0"
        ∷ codes "settled 2 2 2"
        ∷ []) }
{}

/// A document that was made of parts that have changed since is late, and doesn't replace the present one; the one that was made
/// of the present parts counts, once.
/// The lines are those of examples/late-document.session.
pub fn old_documents_are_late()
    ensures said { said (
        codes "full git {\"serial\":1,\"entities\":[{\"entity\":{\"apiVersion\":\"backstage.io/v1alpha1\",\"kind\":\"Component\",\"metadata\":{\"name\":\"web\"},\"spec\":{\"type\":\"service\",\"lifecycle\":\"production\",\"owner\":\"a\"}}}]}"
        ∷ codes "take"
        ∷ codes "finish 1"
        ∷ codes "stitch 0"
        ∷ codes "full git {\"serial\":2,\"entities\":[{\"entity\":{\"apiVersion\":\"backstage.io/v1alpha1\",\"kind\":\"Component\",\"metadata\":{\"name\":\"web\"},\"spec\":{\"type\":\"service\",\"lifecycle\":\"production\",\"owner\":\"b\"}}}]}"
        ∷ codes "take"
        ∷ codes "finish 2"
        ∷ codes "place 1"
        ∷ codes "stitch 0"
        ∷ codes "place 2"
        ∷ codes "place 2"
        ∷ codes "quiet"
        ∷ [])
        ≡ printed (
        codes "ok"
        ∷ codes "order 1 component:default/web"
        ∷ codes "ok good"
        ∷ codes "ticket 1 component:default/web"
        ∷ codes "ok"
        ∷ codes "order 2 component:default/web"
        ∷ codes "ok good"
        ∷ codes "late 2"
        ∷ codes "ticket 2 component:default/web"
        ∷ codes "ok"
        ∷ codes "late none"
        ∷ codes "yes"
        ∷ []) }
{}

/// A record that is refreshed is processed again, and its document stays; one that is forgotten begins anew with another
/// number. What isn't there is refused.
/// The lines are those of examples/refresh-and-forget.session.
pub fn records_begin_anew()
    ensures said { said (
        codes "full git {\"serial\":1,\"entities\":[{\"entity\":{\"apiVersion\":\"backstage.io/v1alpha1\",\"kind\":\"Component\",\"metadata\":{\"name\":\"Web\"},\"spec\":{\"type\":\"service\",\"lifecycle\":\"production\",\"owner\":\"Team-A\"}}}]}"
        ∷ codes "settle"
        ∷ codes "refresh component:web"
        ∷ codes "settle"
        ∷ codes "forget component:web"
        ∷ codes "get component:web"
        ∷ codes "settle"
        ∷ codes "get component:web"
        ∷ codes "refresh component:x"
        ∷ codes "forget component:x"
        ∷ codes "drop file:/x"
        ∷ [])
        ≡ printed (
        codes "ok"
        ∷ codes "settled 1 1 1"
        ∷ codes "ok"
        ∷ codes "settled 1 1 0"
        ∷ codes "ok"
        ∷ codes "refused not_found"
        ∷ codes "settled 1 1 1"
        ∷ codes "{\"apiVersion\":\"backstage.io/v1alpha1\",\"kind\":\"Component\",\"metadata\":{\"name\":\"Web\",\"namespace\":\"default\",\"uid\":\"00000000-0000-8000-8000-000000000002\"},\"relations\":[{\"targetRef\":\"group:default/team-a\",\"type\":\"ownedBy\"}],\"spec\":{\"lifecycle\":\"production\",\"owner\":\"Team-A\",\"type\":\"service\"}}"
        ∷ codes "refused not_found"
        ∷ codes "refused not_found"
        ∷ codes "refused not_found"
        ∷ []) }
{}

/// A moment is a decimal number below 2^53.
/// The lines are those of examples/clock.session.
pub fn moments_have_a_bound()
    ensures said { said (
        codes "clock x"
        ∷ codes "clock 9007199254740992"
        ∷ codes "clock 9007199254740991"
        ∷ [])
        ≡ printed (
        codes "refused arguments"
        ∷ codes "refused arguments"
        ∷ codes "ok"
        ∷ []) }
{}

/// A result lasts two minutes: then its record is due again, and the same result changes no document.
pub fn results_last_two_minutes()
    ensures said { said (
        codes "full git {\"serial\":1,\"entities\":[{\"entity\":{\"apiVersion\":\"backstage.io/v1alpha1\",\"kind\":\"Group\",\"metadata\":{\"name\":\"a\"},\"spec\":{\"type\":\"team\",\"children\":[]}}}]}"
        ∷ codes "settle"
        ∷ codes "clock 119999"
        ∷ codes "quiet"
        ∷ codes "clock 120000"
        ∷ codes "quiet"
        ∷ codes "settle"
        ∷ codes "clock 240000"
        ∷ codes "take"
        ∷ codes "finish 3"
        ∷ [])
        ≡ printed (
        codes "ok"
        ∷ codes "settled 1 1 1"
        ∷ codes "ok"
        ∷ codes "yes"
        ∷ codes "ok"
        ∷ codes "no"
        ∷ codes "settled 1 1 0"
        ∷ codes "ok"
        ∷ codes "order 3 group:default/a"
        ∷ codes "ok good"
        ∷ []) }
{}

/// A result with an error counts and is bad: the document of the last good one stays and shows the error, and the record waits
/// until it is due again.
pub fn a_bad_result_keeps_the_document()
    ensures said { said (
        codes "full git {\"serial\":1,\"entities\":[{\"entity\":{\"apiVersion\":\"backstage.io/v1alpha1\",\"kind\":\"Group\",\"metadata\":{\"name\":\"a\"},\"spec\":{\"type\":\"team\",\"children\":[]}}}]}"
        ∷ codes "settle"
        ∷ codes "full git {\"serial\":2,\"entities\":[{\"entity\":{\"apiVersion\":\"backstage.io/v1alpha1\",\"kind\":\"Group\",\"metadata\":{\"name\":\"a\"},\"spec\":{\"type\":\"team\"}}}]}"
        ∷ codes "take"
        ∷ codes "finish 2"
        ∷ codes "take"
        ∷ codes "settle"
        ∷ codes "get group:a"
        ∷ [])
        ≡ printed (
        codes "ok"
        ∷ codes "settled 1 1 1"
        ∷ codes "ok"
        ∷ codes "order 2 group:default/a"
        ∷ codes "ok bad"
        ∷ codes "none"
        ∷ codes "settled 0 0 1"
        ∷ codes "{\"apiVersion\":\"backstage.io/v1alpha1\",\"kind\":\"Group\",\"metadata\":{\"name\":\"a\",\"namespace\":\"default\",\"uid\":\"00000000-0000-8000-8000-000000000001\"},\"relations\":[],\"spec\":{\"children\":[],\"type\":\"team\"},\"status\":{\"items\":[{\"error\":{\"message\":\"S20 spec.children\",\"name\":\"SchemaFault\"},\"level\":\"error\",\"message\":\"S20 spec.children\",\"type\":\"backstage.io/catalog-processing\"}]}}"
        ∷ []) }
{}
