//! Questions about documents: whole sessions from an empty catalogue on, each with what the program says to its lines.
ghost use Rattle.std.specs.Prelude.{◌≡◌, [], ◌∷◌, codes};
ghost use Rattle.cat_examples.specs.Sessions.{printed, said};

/// A list has the documents that one of its filters accepts, each cut to the paths that are asked for. Facets count the
/// documents with each value; a query that names no facet, and a condition without a key, are refused.
pub fn filters_are_alternatives()
    ensures said { said (
        codes "full git {\"serial\":1,\"entities\":[{\"entity\":{\"apiVersion\":\"backstage.io/v1alpha1\",\"kind\":\"Component\",\"metadata\":{\"name\":\"web\"},\"spec\":{\"type\":\"service\",\"lifecycle\":\"production\",\"owner\":\"a\"}}},{\"entity\":{\"apiVersion\":\"backstage.io/v1alpha1\",\"kind\":\"Component\",\"metadata\":{\"name\":\"site\"},\"spec\":{\"type\":\"website\",\"lifecycle\":\"production\",\"owner\":\"a\"}}},{\"entity\":{\"apiVersion\":\"backstage.io/v1alpha1\",\"kind\":\"Component\",\"metadata\":{\"name\":\"lib\",\"tags\":[\"java\"]},\"spec\":{\"type\":\"library\",\"lifecycle\":\"production\",\"owner\":\"a\"}}}]}"
        ∷ codes "settle"
        ∷ codes "list fields=metadata.name&filter=kind=component,spec.type=service,spec.type=website&filter=metadata.tags.java"
        ∷ codes "facets facet=spec.type&filter=kind=COMPONENT"
        ∷ codes "facets filter=kind"
        ∷ codes "list filter=kind,=x"
        ∷ [])
        ≡ printed (
        codes "ok"
        ∷ codes "settled 1 3 3"
        ∷ codes "[{\"metadata\":{\"name\":\"lib\"}},{\"metadata\":{\"name\":\"site\"}},{\"metadata\":{\"name\":\"web\"}}]"
        ∷ codes "{\"facets\":{\"spec.type\":[{\"count\":1,\"value\":\"library\"},{\"count\":1,\"value\":\"service\"},{\"count\":1,\"value\":\"website\"}]}}"
        ∷ codes "refused facet"
        ∷ codes "refused filter 0 1"
        ∷ []) }
{}

/// A page ends with the cursor of its last document, where more follow; the next one begins after that place, also where the
/// document that stood there is gone. A limit is from 1 to 1,000, an order rises or falls, and a cursor is spelled one way.
pub fn pages_go_on()
    ensures said { said (
        codes "full git {\"serial\":1,\"entities\":[{\"entity\":{\"apiVersion\":\"backstage.io/v1alpha1\",\"kind\":\"Component\",\"metadata\":{\"name\":\"c1\"},\"spec\":{\"type\":\"service\",\"lifecycle\":\"production\",\"owner\":\"a\"}}},{\"entity\":{\"apiVersion\":\"backstage.io/v1alpha1\",\"kind\":\"Component\",\"metadata\":{\"name\":\"c2\"},\"spec\":{\"type\":\"service\",\"lifecycle\":\"production\",\"owner\":\"a\"}}},{\"entity\":{\"apiVersion\":\"backstage.io/v1alpha1\",\"kind\":\"Component\",\"metadata\":{\"name\":\"c3\"},\"spec\":{\"type\":\"service\",\"lifecycle\":\"production\",\"owner\":\"a\"}}},{\"entity\":{\"apiVersion\":\"backstage.io/v1alpha1\",\"kind\":\"Component\",\"metadata\":{\"name\":\"c4\"},\"spec\":{\"type\":\"service\",\"lifecycle\":\"production\",\"owner\":\"a\"}}},{\"entity\":{\"apiVersion\":\"backstage.io/v1alpha1\",\"kind\":\"Component\",\"metadata\":{\"name\":\"c5\"},\"spec\":{\"type\":\"service\",\"lifecycle\":\"production\",\"owner\":\"a\"}}}]}"
        ∷ codes "settle"
        ∷ codes "page fields=metadata.name&limit=2&orderField=spec.type,asc"
        ∷ codes "delta git {\"serial\":2,\"added\":[],\"removed\":[\"component:c3\"]}"
        ∷ codes "page fields=metadata.name&limit=2&orderField=spec.type,asc&cursor=WyJzZXJ2aWNlIiwiY29tcG9uZW50OmRlZmF1bHQvYzIiXQ"
        ∷ codes "page limit=0"
        ∷ codes "page limit=1001"
        ∷ codes "page orderField=kind,up"
        ∷ codes "page cursor=%21"
        ∷ [])
        ≡ printed (
        codes "ok"
        ∷ codes "settled 1 5 5"
        ∷ codes "{\"items\":[{\"metadata\":{\"name\":\"c1\"}},{\"metadata\":{\"name\":\"c2\"}}],\"pageInfo\":{\"nextCursor\":\"WyJzZXJ2aWNlIiwiY29tcG9uZW50OmRlZmF1bHQvYzIiXQ\"},\"totalItems\":5}"
        ∷ codes "ok"
        ∷ codes "{\"items\":[{\"metadata\":{\"name\":\"c4\"}},{\"metadata\":{\"name\":\"c5\"}}],\"pageInfo\":{},\"totalItems\":4}"
        ∷ codes "refused limit"
        ∷ codes "refused limit"
        ∷ codes "refused order"
        ∷ codes "refused cursor"
        ∷ []) }
{}

/// References are looked up one by one, with null for what has no document; the first text that is no reference is refused.
pub fn documents_are_looked_up()
    ensures said { said (
        codes "full git {\"serial\":1,\"entities\":[{\"entity\":{\"apiVersion\":\"backstage.io/v1alpha1\",\"kind\":\"Component\",\"metadata\":{\"name\":\"Web\"},\"spec\":{\"type\":\"service\",\"lifecycle\":\"production\",\"owner\":\"Team-A\"}}}]}"
        ∷ codes "settle"
        ∷ codes "many [\"component:web\",\"component:x\"]"
        ∷ codes "many [\"x\"]"
        ∷ [])
        ≡ printed (
        codes "ok"
        ∷ codes "settled 1 1 1"
        ∷ codes "{\"items\":[{\"apiVersion\":\"backstage.io/v1alpha1\",\"kind\":\"Component\",\"metadata\":{\"name\":\"Web\",\"namespace\":\"default\",\"uid\":\"00000000-0000-8000-8000-000000000001\"},\"relations\":[{\"targetRef\":\"group:default/team-a\",\"type\":\"ownedBy\"}],\"spec\":{\"lifecycle\":\"production\",\"owner\":\"Team-A\",\"type\":\"service\"}},null]}"
        ∷ codes "refused reference 0"
        ∷ []) }
{}
