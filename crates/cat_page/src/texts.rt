//! The files of the page, as they stand in the folder `page`. Made by tools/page.

/// `page/index.html`.
pub(crate) const INDEX_HTML: &[u8] = b"<!doctype html>\n\
<html lang=\"en\">\n\
<head>\n\
<meta charset=\"utf-8\">\n\
<meta name=\"viewport\" content=\"width=device-width, initial-scale=1\">\n\
<meta name=\"color-scheme\" content=\"light dark\">\n\
<title>Catalogue</title>\n\
<link rel=\"icon\" href=\"/page/icon.svg\" type=\"image/svg+xml\">\n\
<link rel=\"stylesheet\" href=\"/page/style.css\">\n\
<script type=\"module\" src=\"/page/main.js\"></script>\n\
</head>\n\
<body>\n\
<a class=\"skip\" href=\"#main\">Skip to the content</a>\n\
<header class=\"top\">\n\
\x20 <a class=\"brand\" href=\"#/\"><img src=\"/page/icon.svg\" alt=\"\" width=\"24\" height=\"24\">Catalogue</a>\n\
\x20 <form role=\"search\" id=\"search\">\n\
\x20   <label class=\"hidden\" for=\"query\">Search names, titles, descriptions and tags</label>\n\
\x20   <input id=\"query\" type=\"search\" placeholder=\"Search names, titles, descriptions, tags\" autocomplete=\"off\" spellcheck=\"false\" a\
ria-keyshortcuts=\"/\">\n\
\x20   <kbd aria-hidden=\"true\">/</kbd>\n\
\x20 </form>\n\
\x20 <nav aria-label=\"Pages\">\n\
\x20   <a href=\"#/\" data-page=\"find\">Find</a>\n\
\x20   <a href=\"#/?kind=group\">Groups</a>\n\
\x20   <a href=\"#/state\" data-page=\"state\">State</a>\n\
\x20 </nav>\n\
</header>\n\
<p id=\"notice\" role=\"status\" aria-live=\"polite\" hidden></p>\n\
<main id=\"main\" tabindex=\"-1\">\n\
\x20 <noscript>\n\
\x20   <section class=\"empty\">\n\
\x20     <h1>This page needs JavaScript</h1>\n\
\x20     <p>Switch it on for this address, or ask the catalogue itself. It answers with JSON:</p>\n\
\x20     <ul>\n\
\x20       <li><a href=\"/entities/by-query\">/entities/by-query</a>: a page of entities</li>\n\
\x20       <li><a href=\"/entity-facets?facet=kind&amp;facet=spec.type\">/entity-facets?facet=kind&amp;facet=spec.type</a>:\n\
\x20         how many there are of each kind and type</li>\n\
\x20       <li><a href=\"/failed\">/failed</a>, <a href=\"/conflicts\">/conflicts</a>, <a href=\"/orphans\">/orphans</a>: what is broken, conte\
sted or left over</li>\n\
\x20     </ul>\n\
\x20   </section>\n\
\x20 </noscript>\n\
</main>\n\
<footer class=\"foot\"><span id=\"count\" role=\"status\"></span><span id=\"live\"></span></footer>\n\
<dialog id=\"token\">\n\
\x20 <form method=\"dialog\">\n\
\x20   <h2>A token, please</h2>\n\
\x20   <p id=\"token-reason\">This catalogue answers only who has a token. It is kept for this tab alone.</p>\n\
\x20   <label for=\"token-field\">Token</label>\n\
\x20   <input id=\"token-field\" type=\"password\" autocomplete=\"off\">\n\
\x20   <p class=\"actions\"><button value=\"cancel\">Cancel</button><button class=\"primary\" value=\"use\">Use it</button></p>\n\
\x20 </form>\n\
</dialog>\n\
<template id=\"empty\">\n\
\x20 <section class=\"empty\">\n\
\x20   <h1>Nothing is in the catalogue yet</h1>\n\
\x20   <p>Bring something in, and it appears here by itself. In a folder of the catalogue's sources:</p>\n\
\x20   <pre tabindex=\"0\">curl -d @examples/owners.json <span class=\"origin\"></span>/providers/git/full</pre>\n\
\x20   <p>A provider gives all its entities in one message, and the next one replaces them.\n\
\x20     Files in YAML come in by <code>PUT /shelf</code>; docs/HTTP.md says how.</p>\n\
\x20 </section>\n\
</template>\n\
\n\
<template id=\"order\">\n\
\x20 <label class=\"order\">Order\n\
\x20   <select id=\"by\">\n\
\x20     <option value=\"best\">Best match</option>\n\
\x20     <option value=\"name\">Name</option>\n\
\x20     <option value=\"kind\">Kind</option>\n\
\x20     <option value=\"type\">Type</option>\n\
\x20     <option value=\"owner\">Owner</option>\n\
\x20   </select>\n\
\x20 </label>\n\
</template>\n\
\n\
<template id=\"state\">\n\
\x20 <h1 tabindex=\"-1\">State</h1>\n\
\x20 <dl class=\"counts\">\n\
\x20   <div><dt>records</dt><dd data-count=\"records\"></dd></div>\n\
\x20   <div><dt>due to be processed</dt><dd data-count=\"due\"></dd></div>\n\
\x20   <div><dt>being processed</dt><dd data-count=\"leased\"></dd></div>\n\
\x20   <div><dt>documents to write</dt><dd data-count=\"marked\"></dd></div>\n\
\x20   <div><dt>orphans</dt><dd data-count=\"orphans\"></dd></div>\n\
\x20 </dl>\n\
</template>\n\
\n\
<!-- Each relation, and the one of its pair that points away from its entity. -->\n\
<template id=\"relations\">\n\
\x20 <p data-type=\"ownedBy\" data-onward=\"ownedBy\">Owned by</p>\n\
\x20 <p data-type=\"partOf\" data-onward=\"partOf\">Part of</p>\n\
\x20 <p data-type=\"dependsOn\" data-onward=\"dependsOn\">Depends on</p>\n\
\x20 <p data-type=\"dependencyOf\" data-onward=\"dependsOn\">What depends on it</p>\n\
\x20 <p data-type=\"providesApi\" data-onward=\"providesApi\">Provides</p>\n\
\x20 <p data-type=\"apiProvidedBy\" data-onward=\"providesApi\">Provided by</p>\n\
\x20 <p data-type=\"consumesApi\" data-onward=\"consumesApi\">Consumes</p>\n\
\x20 <p data-type=\"apiConsumedBy\" data-onward=\"consumesApi\">Consumed by</p>\n\
\x20 <p data-type=\"hasPart\" data-onward=\"partOf\">Has as parts</p>\n\
\x20 <p data-type=\"ownerOf\" data-onward=\"ownedBy\">Owns</p>\n\
\x20 <p data-type=\"childOf\" data-onward=\"childOf\">Parent</p>\n\
\x20 <p data-type=\"parentOf\" data-onward=\"childOf\">Children</p>\n\
\x20 <p data-type=\"memberOf\" data-onward=\"memberOf\">Member of</p>\n\
\x20 <p data-type=\"hasMember\" data-onward=\"memberOf\">Members</p>\n\
</template>\n\
\n\
<!-- What goes wrong with an entity, by the name of the error or the rule; * stands for the place or the text. -->\n\
<template id=\"sentences\">\n\
\x20 <p data-rule=\"S2\">* has to be backstage.io/v1alpha1 or backstage.io/v1beta1.</p>\n\
\x20 <p data-rule=\"S3\">* has to be Component, API, Resource, System, Domain, Group, User or Location.</p>\n\
\x20 <p data-rule=\"S9\">* is no key: a name, perhaps with a domain and a slash before it.</p>\n\
\x20 <p data-rule=\"S10\">* has to be empty or a name.</p>\n\
\x20 <p data-rule=\"S11\">* is no key: a name, perhaps with a domain and a slash before it.</p>\n\
\x20 <p data-rule=\"S13\">* has to be a list.</p>\n\
\x20 <p data-rule=\"S14\">* has to be a tag: small letters, digits, \xe2\x80\x9c:\xe2\x80\x9d, \xe2\x80\x9c+\xe2\x80\x9d and \xe2\x80\x9c#\xe2\x80\
\x9d, in pieces joined by \xe2\x80\x9c-\xe2\x80\x9d, at most 63 bytes.</p>\n\
\x20 <p data-rule=\"S15\">* has to be a list.</p>\n\
\x20 <p data-rule=\"S16\">* has to be an object with a url that isn't empty.</p>\n\
\x20 <p data-rule=\"S18\">* has to be an object.</p>\n\
\x20 <p data-rule=\"S19\">* is required, as a text that isn't empty.</p>\n\
\x20 <p data-rule=\"S20\">* is required, as a list.</p>\n\
\x20 <p data-rule=\"S21\">* has to be a text that isn't empty.</p>\n\
\x20 <p data-rule=\"S22\">* has to be a list of texts that aren't empty.</p>\n\
\x20 <p data-rule=\"S23\">* has to be an object, with displayName, email and picture as texts.</p>\n\
\x20 <p data-rule=\"S24\">* isn't as a Location's type, targets and presence have to be.</p>\n\
\x20 <p data-rule=\"SchemaFault\">* has to be a text.</p>\n\
\x20 <p data-rule=\"ReferenceFault Shape\">The reference in * isn't of the form [kind:][namespace/]name.</p>\n\
\x20 <p data-rule=\"ReferenceFault NoKind\">The reference in * has to name its kind.</p>\n\
\x20 <p data-rule=\"ReferenceFault\">The reference in * has a kind, namespace or name of the wrong form.</p>\n\
\x20 <p data-rule=\"TargetFault TooMany\">It has over 1,000 targets.</p>\n\
\x20 <p data-rule=\"TargetFault NoType\">It has targets, but nothing says of which type they are.</p>\n\
\x20 <p data-rule=\"TargetFault\">A target of it resolves to no address: number * (from 0).</p>\n\
\x20 <p data-rule=\"MissingTarget\">There is no text under *.</p>\n\
\x20 <p data-rule=\"ShelfFault Syntax\">The text * is neither JSON nor block YAML.</p>\n\
\x20 <p data-rule=\"ShelfFault Fraction\">The text * has a number that is no whole number of 64 bits.</p>\n\
\x20 <p data-rule=\"ShelfFault Shape\">The text * is no object or list of objects, or has a document that is no map.</p>\n\
\x20 <p data-rule=\"ShelfFault Deep\">The text * has a descriptor that is too deep.</p>\n\
\x20 <p data-rule=\"ShelfFault NoRef\">The text * has a descriptor that names no entity.</p>\n\
\x20 <p data-rule=\"DuplicateOffer\">* stands twice in a text of it; the first counts.</p>\n\
</template>\n\
\n\
<svg class=\"hidden\" aria-hidden=\"true\" width=\"0\" height=\"0\">\n\
\x20 <marker id=\"arrow\" viewBox=\"0 0 8 8\" refX=\"7\" refY=\"4\" markerWidth=\"7\" markerHeight=\"7\" markerUnits=\"userSpaceOnUse\" orient=\
\"auto\">\n\
\x20   <path d=\"M0 1 8 4 0 7z\"/>\n\
\x20 </marker>\n\
</svg>\n\
</body>\n\
</html>\n\
";

/// `page/catalogue.js`.
pub(crate) const CATALOGUE_JS: &[u8] =
    b"// What the search knows of each entity: loaded page by page, and kept by `/changes`.\n\
\n\
import { h } from \"./dom.js\";\n\
import { address, parts, refIn, resolved, shortName } from \"./refs.js\";\n\
import { get, headers } from \"./server.js\";\n\
\n\
const EVERY = 2000;\n\
const METADATA = [\"namespace\", \"name\", \"title\", \"description\", \"tags\"].map((key) => `metadata.${key}`);\n\
const FIELDS = `kind,${METADATA},spec.type,spec.lifecycle,spec.owner,spec.profile.displayName`;\n\
\n\
// Rows by reference; whether all are there; what changed, the newest first; why the server isn't heard.\n\
export const catalogue = { rows: new Map(), whole: false, total: 0, version: 0, recent: [], trouble: undefined };\n\
\n\
const listeners = new Set();\n\
let place;\n\
let waiting;\n\
\n\
export function listen(listener) {\n\
\x20 listeners.add(listener);\n\
\x20 return () => listeners.delete(listener);\n\
}\n\
\n\
// Tells the listeners, a few times a second at most.\n\
function tell() {\n\
\x20 catalogue.version += 1;\n\
\x20 waiting ??= setTimeout(() => {\n\
\x20   waiting = undefined;\n\
\x20   for (const listener of listeners) listener();\n\
\x20 }, 200);\n\
}\n\
\n\
const text = (value) => (typeof value === \"string\" ? value : \"\");\n\
\n\
function keep({ kind, metadata, spec = {} }) {\n\
\x20 const { name, namespace = \"default\" } = metadata;\n\
\x20 const ref = refIn({ kind, metadata });\n\
\x20 const title = text(metadata.title) || text(spec.profile?.displayName);\n\
\x20 const description = text(metadata.description);\n\
\x20 const tags = (metadata.tags ?? []).map(text);\n\
\x20 catalogue.rows.set(ref, {\n\
\x20   ref, kind: kind.toLowerCase(), name, title, description, tags, type: text(spec.type), lifecycle: text(spec.lifecycle),\n\
\x20   owner: text(spec.owner) && resolved(spec.owner, \"group\", namespace),\n\
\x20   label: (title || name).toLowerCase(), found: [name, title, description, ...tags].join(\"\\n\").toLowerCase(),\n\
\x20 });\n\
}\n\
\n\
export const rowFor = (ref) => catalogue.rows.get(ref) ?? { ref, ...parts(ref), title: \"\", tags: [] };\n\
\n\
export const titleOf = (ref) => catalogue.rows.get(ref)?.title || shortName(ref);\n\
\n\
export const dot = (kind) => h(`span.dot.${kind.toLowerCase().replaceAll(/\\W/g, \"\")}`, { \"aria-hidden\": \"true\" });\n\
\n\
export const link = (ref) => h(\"a.ref\", { href: address(ref), title: ref }, dot(parts(ref).kind), titleOf(ref));\n\
\n\
export const tagLinks = (tags) => tags.map((tag) => h(\"a.tag\", { href: `#/?tags=${encodeURIComponent(tag)}` }, text(tag)));\n\
\n\
const presentPlace = () => new Promise((done) => {\n\
\x20 const worker = new Worker(\"/page/place.js\", { type: \"module\" });\n\
\x20 worker.addEventListener(\"message\", ({ data }) => done(data, worker.terminate()));\n\
\x20 worker.postMessage(headers());\n\
});\n\
\n\
// The first question is for the token, which the worker can't ask for.\n\
async function load() {\n\
\x20 let cursor = \"\";\n\
\x20 await get(\"/entities/by-query?limit=1&fields=kind\");\n\
\x20 place = await presentPlace();\n\
\x20 catalogue.rows.clear();\n\
\x20 do {\n\
\x20   const { items, totalItems, pageInfo } = await get(`/entities/by-query?limit=1000&fields=${FIELDS}${cursor}`);\n\
\x20   items.forEach(keep);\n\
\x20   catalogue.total = totalItems;\n\
\x20   cursor = pageInfo.nextCursor && `&cursor=${pageInfo.nextCursor}`;\n\
\x20   tell();\n\
\x20 } while (cursor);\n\
}\n\
\n\
async function follow(since, time) {\n\
\x20 const { changes, to } = await get(`/changes?since=${since}`);\n\
\x20 for (const { entityRef: ref, set } of changes) {\n\
\x20   const was = catalogue.rows.has(ref);\n\
\x20   if (set) keep(set);\n\
\x20   else catalogue.rows.delete(ref);\n\
\x20   catalogue.recent.unshift({ ref, time, what: !set ? \"removed\" : was ? \"changed\" : \"added\" });\n\
\x20 }\n\
\x20 catalogue.recent.splice(200);\n\
\x20 place = to;\n\
\x20 if (changes.length > 0) tell();\n\
}\n\
\n\
async function begin() {\n\
\x20 await load();\n\
\x20 const [epoch, last] = place.split(\".\");\n\
\x20 await follow(`${epoch}.${Math.max(0, last - 50)}`).catch(() => undefined);\n\
\x20 catalogue.whole = true;\n\
\x20 tell();\n\
}\n\
\n\
export async function run() {\n\
\x20 try {\n\
\x20   if (!catalogue.whole) await begin();\n\
\x20   else if (!document.hidden) await follow(place, new Date());\n\
\x20   if (catalogue.trouble) tell();\n\
\x20   catalogue.trouble = undefined;\n\
\x20 } catch (fault) {\n\
\x20   if (fault.status === 410) catalogue.whole = false;\n\
\x20   catalogue.trouble = fault;\n\
\x20   tell();\n\
\x20 }\n\
\x20 setTimeout(run, EVERY);\n\
}\n\
";

/// `page/dom.js`.
pub(crate) const DOM_JS: &[u8] =
    b"// Elements of the page. Whatever comes from the catalogue becomes a text node, never markup.\n\
\n\
export const find = (id) => document.getElementById(id);\n\
\n\
export const ready = (id) => find(id).content.cloneNode(true);\n\
\n\
const maker = (space) => (tag, ...rest) => {\n\
\x20 const [name, ...classes] = tag.split(\".\");\n\
\x20 const node = document.createElementNS(space, name);\n\
\x20 if (classes.length > 0) node.setAttribute(\"class\", classes.join(\" \"));\n\
\x20 if (rest[0]?.constructor === Object) {\n\
\x20   for (const [key, value] of Object.entries(rest.shift())) {\n\
\x20     if (typeof value === \"function\") node.addEventListener(key, value);\n\
\x20     else if (value || value === 0) node.setAttribute(key, value === true ? \"\" : value);\n\
\x20   }\n\
\x20 }\n\
\x20 node.append(...shownOf(rest));\n\
\x20 return node;\n\
};\n\
\n\
const shownOf = (children) => children.flat(9).filter((child) => child || child === 0);\n\
\n\
// An element by tag and classes, with attributes (a function listens to its event) and children.\n\
export const h = maker(\"http://www.w3.org/1999/xhtml\");\n\
export const svg = maker(\"http://www.w3.org/2000/svg\");\n\
\n\
// New children for a node. The focus stays on the id that had it.\n\
export function show(node, ...children) {\n\
\x20 const id = node.contains(document.activeElement) && document.activeElement.id;\n\
\x20 node.replaceChildren(...shownOf(children));\n\
\x20 if (id) find(id)?.focus();\n\
}\n\
\n\
// A link where its scheme is safe to follow; else text alone.\n\
export function outside(address, text) {\n\
\x20 const url = URL.canParse(address) && new URL(address);\n\
\x20 if (!url || ![\"http:\", \"https:\", \"mailto:\"].includes(url.protocol)) return h(\"span\", text === address ? text : `${text} (${address\
})`);\n\
\x20 return h(\"a\", { href: url.href, target: \"_blank\", rel: \"noopener noreferrer\" }, text);\n\
}\n\
\n\
export const number = (n) => n.toLocaleString(\"en\");\n\
\n\
export const counted = (n, one, many = `${one}s`) => `${number(n)} ${n === 1 ? one : many}`;\n\
\n\
export const section = (title, ...children) => h(\"section\", h(\"h2\", title), children);\n\
\n\
export function paged(label, list, item) {\n\
\x20 const box = h(\"div.paged\");\n\
\x20 const draw = (first) => {\n\
\x20   const end = Math.min(first + 50, list.length);\n\
\x20   const to = (text, start) => h(\"button\", { id: `${label} ${text}`, disabled: start < 0 || start >= list.length, click: () => draw(start\
) }, text);\n\
\x20   show(box, h(\"ol.rows\", { \"aria-label\": label }, list.slice(first, end).map(item)),\n\
\x20     list.length > 50 && h(\"p.pager\",\n\
\x20       to(\"Back\", first - 50), h(\"span\", `${number(first + 1)} to ${number(end)} of ${number(list.length)}`), to(\"Next\", first + 50))\
);\n\
\x20 };\n\
\x20 draw(0);\n\
\x20 return box;\n\
}\n\
\n\
export const listed = (title, list, item, none) =>\n\
\x20 section(`${title} (${number(list.length)})`, list.length > 0 ? paged(title, list, item) : h(\"p.none\", none));\n\
";

/// `page/entity.js`.
pub(crate) const ENTITY_JS: &[u8] =
    b"// An entity: what it says, what is around it, where it comes from, and its text.\n\
\n\
import { catalogue, dot, link, listen, tagLinks } from \"./catalogue.js\";\n\
import { find, h, listed, outside, section, show } from \"./dom.js\";\n\
import { graph } from \"./graph.js\";\n\
import { groupSections, OF_GROUPS } from \"./group.js\";\n\
import { origins } from \"./origin.js\";\n\
import { address, headingOf, kindName, refOf, RELATIONS, targets } from \"./refs.js\";\n\
import { contest, problem } from \"./sentences.js\";\n\
import { exact, get, post } from \"./server.js\";\n\
import { yaml } from \"./yaml.js\";\n\
\n\
const ASIDE = [\"ownedBy\", \"partOf\"];\n\
\n\
const written = (value) => (typeof value === \"string\" ? value : JSON.stringify(value));\n\
\n\
async function refresh(entityRef) {\n\
\x20 const notice = find(\"notice\");\n\
\x20 notice.textContent = await post(\"/refresh\", { entityRef })\n\
\x20   .then(() => \"It is due again; what changes appears here.\", ({ message }) => `It can't be refreshed: ${message}.`);\n\
\x20 notice.hidden = false;\n\
}\n\
\n\
function head(ref, { metadata, spec } = {}, tab) {\n\
\x20 const [kind] = ref.split(\":\");\n\
\x20 const title = written(metadata?.title ?? spec?.profile?.displayName ?? metadata?.name ?? ref);\n\
\x20 document.title = `${title} \xc2\xb7 Catalogue`;\n\
\x20 return h(\"header.entity\", h(\"p.kind\", dot(kind), [kindName(kind), spec?.type].filter(Boolean).join(\" \xc2\xb7 \")), h(\"h1\", { tabin\
dex: -1 }, title),\n\
\x20   h(\"p.reference\", h(\"code\", ref), h(\"button\", { click: () => refresh(ref) }, \"Refresh\")),\n\
\x20   metadata && h(\"nav.tabs\", { \"aria-label\": \"Parts of the entity\" }, Object.keys(TABS).map((name) =>\n\
\x20     h(\"a\", { href: address(ref, `?tab=${name}`), \"aria-current\": name === tab && \"page\" }, name))));\n\
}\n\
\n\
const pairs = (entries) => h(\"dl\", entries.filter(([, value]) => value?.length > 0).map(([key, value]) => [h(\"dt\", key), h(\"dd\", value\
)]));\n\
\n\
const labels = (title, map = {}) => Object.keys(map).length > 0 && section(title, pairs(Object.entries(map).map(([key, value]) => [key, writ\
ten(value)])));\n\
\n\
const alarm = (title, items) => items.length > 0 && h(\"section.alarm\", h(\"h2\", title), h(\"ul\", items));\n\
\n\
function later(promise) {\n\
\x20 const box = h(\"div\", \"\xe2\x80\xa6\");\n\
\x20 promise.then((children) => show(box, children), (fault) => show(box, fault.message));\n\
\x20 return box;\n\
}\n\
\n\
const contests = async (ref) => alarm(\"It is offered twice\",\n\
\x20 (await get(\"/conflicts\")).filter(({ entityRef }) => entityRef === ref).map((conflict) => h(\"li\", contest(conflict))));\n\
\n\
function about(ref, entity) {\n\
\x20 const { metadata, spec = {} } = entity;\n\
\x20 const mail = spec.profile?.email;\n\
\x20 return h(\"aside\", { \"aria-label\": \"About it\" }, pairs([\n\
\x20   ...ASIDE.map((type) => [headingOf(type), targets(entity, type).slice(0, 50).map(link)]),\n\
\x20   [\"Type\", written(spec.type)], [\"Lifecycle\", written(spec.lifecycle)], [\"Mail\", mail && [outside(`mailto:${mail}`, mail)]],\n\
\x20   [\"Tags\", tagLinks(metadata.tags ?? [])], [\"Links\", (metadata.links ?? []).map(({ url, title = url }) => h(\"p\", outside(url, title)\
))],\n\
\x20 ]), section(\"Where it comes from\", later(origins(ref, entity))), labels(\"Labels\", metadata.labels), labels(\"Annotations\", metadata.a\
nnotations));\n\
}\n\
\n\
function overview(ref, entity) {\n\
\x20 const { metadata, status, relations = [] } = entity;\n\
\x20 const groups = ref.startsWith(\"group:\") ? OF_GROUPS : [];\n\
\x20 const types = new Set([...Object.keys(RELATIONS), ...relations.map(({ type }) => type)]);\n\
\x20 for (const type of [...ASIDE, ...groups]) types.delete(type);\n\
\x20 return h(\"div.split.entity\", h(\"div\",\n\
\x20   alarm(\"What is wrong with it\", (status?.items ?? []).map(problem)), later(contests(ref)),\n\
\x20   metadata.annotations?.[\"backstage.io/orphan\"] === \"true\" && h(\"p.alarm\", \"It is an orphan: what it came from lists it no more.\")\
,\n\
\x20   metadata.description && h(\"p.description\", written(metadata.description)), groups.length > 0 && later(groupSections(ref)),\n\
\x20   [...types].map((type) => [headingOf(type), targets(entity, type)]).filter(([, refs]) => refs.length > 0)\n\
\x20     .map(([title, refs]) => listed(title, refs, (other) => h(\"li\", link(other))))), about(ref, entity));\n\
}\n\
\n\
const TABS = {\n\
\x20 Overview: overview,\n\
\x20 Graph: (ref, entity, options) => later(graph(ref, options)),\n\
\x20 YAML: (ref, entity) => h(\"pre\", { tabindex: 0 }, yaml(entity)),\n\
\x20 JSON: (ref, entity) => h(\"pre\", { tabindex: 0 }, JSON.stringify(entity, null, 2)),\n\
};\n\
\n\
let read = {};\n\
\n\
// Shows the entity of an address, or why it has no document.\n\
export async function entityPage(box, options, words) {\n\
\x20 const ref = refOf(...words);\n\
\x20 const tab = TABS[options.get(\"tab\")] ? options.get(\"tab\") : \"Overview\";\n\
\x20 const isOld = () => catalogue.whole !== read.whole || catalogue.recent.some((change) => change.ref === ref && change.time > read.time);\n\
\x20 const draw = async () => {\n\
\x20   if (read.ref !== ref || isOld()) {\n\
\x20     read = { ref, time: new Date(), whole: catalogue.whole };\n\
\x20     [read.entity] = (await post(\"/entities/by-refs\", { entityRefs: [ref] }, exact)).items;\n\
\x20   }\n\
\x20   const { entity } = read;\n\
\x20   if (entity) return show(box, head(ref, entity, tab), TABS[tab](ref, entity, options));\n\
\x20   const failed = (await get(\"/failed\")).find(({ entityRef }) => entityRef === ref);\n\
\x20   return show(box, head(ref), failed\n\
\x20     ? alarm(\"It has no document, since it was never processed well\", failed.items.map(problem)) : \"Nothing in the catalogue has this re\
ference.\");\n\
\x20 };\n\
\x20 await draw();\n\
\x20 return listen(() => isOld() && draw());\n\
}\n\
";

/// `page/find.js`.
pub(crate) const FIND_JS: &[u8] =
    b"// The first page: results of the search, with facets beside them.\n\
\n\
import { catalogue, dot, link, listen, tagLinks, titleOf } from \"./catalogue.js\";\n\
import { counted, find, h, number, ready, show } from \"./dom.js\";\n\
import { address, kindName, shortName } from \"./refs.js\";\n\
import { addressOf, FACETS, foremost, queryOf, search, toggled } from \"./search.js\";\n\
\n\
const PAGE = 50;\n\
const SHOWN = { kind: kindName, owner: titleOf };\n\
\n\
const shown = (facet, value) => SHOWN[facet]?.(value) ?? value;\n\
\n\
// A row of a list of entities.\n\
export const result = (row) => h(\"li.result\",\n\
\x20 h(\"div\", h(\"a.title\", { href: address(row.ref) }, dot(row.kind), row.title || row.name), row.title && h(\"span.name\", shortName(row.r\
ef)),\n\
\x20   row.description && h(\"p.about\", row.description), row.tags.length > 0 && h(\"p.tags\", tagLinks(row.tags.slice(0, 8)))),\n\
\x20 h(\"div.facts\", h(\"span\", [kindName(row.kind), row.type, row.lifecycle].filter(Boolean).join(\" \xc2\xb7 \")), row.owner && link(row.ow\
ner)));\n\
\n\
function facet(name, query, counts) {\n\
\x20 const chosen = query.chosen.get(name) ?? new Set();\n\
\x20 const values = foremost(counts, PAGE);\n\
\x20 const item = ([value, n]) => h(\"li\", h(\"label\", { change: () => { location.hash = addressOf(toggled(query, name, value)); } },\n\
\x20   h(\"input\", { type: \"checkbox\", id: `${name}=${value}`, checked: chosen.has(value) }), h(\"span.value\", shown(name, value)), h(\"spa\
n.n\", number(n))));\n\
\x20 return values.length > 0 && h(\"fieldset\", h(\"legend\", FACETS[name]), h(\"ul\", values.map(item)));\n\
}\n\
\n\
function order(query) {\n\
\x20 const label = ready(\"order\");\n\
\x20 const box = label.querySelector(\"select\");\n\
\x20 box.value = query.order;\n\
\x20 box.addEventListener(\"change\", () => { location.hash = addressOf({ ...query, order: box.value, page: 1 }); });\n\
\x20 return label;\n\
}\n\
\n\
function pager(query, total) {\n\
\x20 const last = Math.ceil(total / PAGE);\n\
\x20 const to = (page, text) => (page < 1 || page > last ? h(\"span\", text) : h(\"a\", { href: addressOf({ ...query, page }) }, text));\n\
\x20 return last > 1 && h(\"nav.pager\", { \"aria-label\": \"Pages of results\" },\n\
\x20   to(query.page - 1, \"Back\"), h(\"span\", `Page ${number(query.page)} of ${number(last)}`), to(query.page + 1, \"Next\"));\n\
}\n\
\n\
function nothing() {\n\
\x20 const text = ready(\"empty\");\n\
\x20 text.querySelector(\".origin\").textContent = location.origin;\n\
\x20 return text;\n\
}\n\
\n\
// Shows the results of the query in the address.\n\
export function findPage(box, options) {\n\
\x20 const query = queryOf(options);\n\
\x20 const field = find(\"query\");\n\
\x20 if (document.activeElement !== field) field.value = query.q;\n\
\x20 const [status, chosen, results, after, facets] = [h(\"p.status\", { role: \"status\" }), h(\"p\"), h(\"ol.results\"), h(\"div\"), h(\"div\"\
)];\n\
\x20 const page = h(\"div.split\", h(\"details\", { open: innerWidth > 800 }, h(\"summary\", \"Filter\"), facets),\n\
\x20   h(\"div\", h(\"h1.hidden\", \"Find\"), h(\"div.bar\", status, order(query)), chosen, results, after));\n\
\x20 const away = ([name, values]) => [...values].map((value) =>\n\
\x20   h(\"a.tag\", { href: addressOf(toggled(query, name, value)), \"aria-label\": `Without ${shown(name, value)}` }, `${FACETS[name]}: ${show\
n(name, value)} \xc3\x97`));\n\
\x20 const draw = () => {\n\
\x20   const { rows, version, whole } = catalogue;\n\
\x20   const { matches, counts } = search(query, rows, version);\n\
\x20   const first = (query.page - 1) * PAGE;\n\
\x20   status.textContent = rows.size === 0 ? \"Loading \xe2\x80\xa6\" : counted(matches.length, \"entity\", \"entities\");\n\
\x20   show(chosen, [...query.chosen].map(away));\n\
\x20   show(results, matches.slice(first, first + PAGE).map(result));\n\
\x20   results.start = first + 1;\n\
\x20   show(after, pager(query, matches.length));\n\
\x20   show(facets, Object.keys(FACETS).map((name) => facet(name, query, counts[name])));\n\
\x20   if (whole && rows.size === 0) show(box, nothing());\n\
\x20   else if (!box.contains(page)) show(box, page);\n\
\x20 };\n\
\x20 draw();\n\
\x20 return listen(draw);\n\
}\n\
";

/// `page/graph.js`.
pub(crate) const GRAPH_JS: &[u8] =
    b"// A graph of what is around an entity: on its left what points to it, on its right what it points to.\n\
\n\
import { titleOf } from \"./catalogue.js\";\n\
import { counted, h, svg } from \"./dom.js\";\n\
import { address, headingOf, kindName, parts, RELATIONS } from \"./refs.js\";\n\
import { around } from \"./server.js\";\n\
\n\
const [WIDTH, HEIGHT, ACROSS, DOWN] = [172, 38, 250, 52];\n\
const TALL = 12;\n\
\n\
class Graph {\n\
\x20 constructor(hidden) {\n\
\x20   Object.assign(this, { hidden, nodes: new Map(), edges: new Map(), types: new Set(), left: new Set() });\n\
\x20 }\n\
\n\
\x20 // True where it is new and has room.\n\
\x20 place(ref, column) {\n\
\x20   if (this.nodes.has(ref)) return false;\n\
\x20   const room = [...this.nodes.values()].filter((node) => node.column === column).length < TALL;\n\
\x20   if (room) this.nodes.set(ref, { column });\n\
\x20   else this.left.add(ref);\n\
\x20   return room;\n\
\x20 }\n\
\n\
\x20 // True where the target of the relation is new.\n\
\x20 add(ref, { type, targetRef }, goesOn) {\n\
\x20   const onward = RELATIONS[type]?.[1] ?? type;\n\
\x20   this.types.add(onward);\n\
\x20   if (this.hidden.includes(onward)) return false;\n\
\x20   const isNew = goesOn && this.place(targetRef, this.nodes.get(ref).column + (onward === type ? 1 : -1));\n\
\x20   const [from, to] = onward === type ? [ref, targetRef] : [targetRef, ref];\n\
\x20   if (this.nodes.has(targetRef)) this.edges.set(`${from} ${onward} ${to}`, { type: onward, from, to });\n\
\x20   return isNew;\n\
\x20 }\n\
\n\
\x20 async grow(front, steps) {\n\
\x20   const found = await around(front);\n\
\x20   const next = front.flatMap((ref, i) => {\n\
\x20     this.nodes.get(ref).missing = !found[i];\n\
\x20     return (found[i]?.relations ?? []).filter((relation) => this.add(ref, relation, steps > 0)).map(({ targetRef }) => targetRef);\n\
\x20   });\n\
\x20   if (next.length > 0) await this.grow(next, steps - 1);\n\
\x20 }\n\
\n\
\x20 // Gives each node its place; answers the size.\n\
\x20 arrange() {\n\
\x20   const columns = Map.groupBy(this.nodes.values(), ({ column }) => column);\n\
\x20   const least = Math.min(...columns.keys());\n\
\x20   const tallest = Math.max(...[...columns.values()].map(({ length }) => length));\n\
\x20   for (const [column, members] of columns) {\n\
\x20     members.forEach((node, i) => Object.assign(node, { x: 8 + (column - least) * ACROSS, y: 8 + (i + (tallest - members.length) / 2) * DOW\
N }));\n\
\x20   }\n\
\x20   return { width: columns.size * ACROSS, height: tallest * DOWN + 8 };\n\
\x20 }\n\
}\n\
\n\
function box(ref, { x, y, missing }, start) {\n\
\x20 const { kind } = parts(ref);\n\
\x20 const title = titleOf(ref);\n\
\x20 const label = ref + (missing ? \", which isn't in the catalogue\" : \"\");\n\
\x20 return svg(\"a\", { href: address(ref, \"?tab=Graph\"), class: `node ${kind} ${ref === start && \"start\"} ${missing && \"missing\"}`, \"a\
ria-label\": label },\n\
\x20   svg(\"title\", ref), svg(\"rect\", { x, y, width: WIDTH, height: HEIGHT, rx: 6 }), svg(\"rect.side\", { x, y, width: 5, height: HEIGHT, \
rx: 2 }),\n\
\x20   svg(\"text\", { x: x + 14, y: y + 16 }, title.length > 22 ? `${title.slice(0, 21)}\xe2\x80\xa6` : title), svg(\"text.small\", { x: x + 1\
4, y: y + 30 }, kindName(kind)));\n\
}\n\
\n\
// A line on, back, or round within a column.\n\
function line(name, { type, from, to }, nodes) {\n\
\x20 const [a, b] = [nodes.get(from), nodes.get(to)];\n\
\x20 const [out, into] = [a.x <= b.x, a.x < b.x];\n\
\x20 const [x1, y1, x2, y2] = [a.x + out * WIDTH, a.y + HEIGHT / 2, b.x + !into * WIDTH, b.y + HEIGHT / 2];\n\
\x20 const d = `M${x1} ${y1}C${x1 + (out ? 45 : -45)} ${y1} ${x2 + (into ? -45 : 45)} ${y2} ${x2} ${y2}`;\n\
\x20 return svg(`path.edge.${type}`, { d, \"marker-end\": \"url(#arrow)\" }, svg(\"title\", name));\n\
}\n\
\n\
// The picture, and what chooses its steps and relations.\n\
export async function graph(ref, options) {\n\
\x20 const steps = Math.min(3, Math.max(1, Number(options.get(\"steps\")) || 1));\n\
\x20 const hidden = options.getAll(\"without\");\n\
\x20 const drawn = new Graph(hidden);\n\
\x20 drawn.place(ref, 0);\n\
\x20 await drawn.grow([ref], steps);\n\
\x20 const { nodes, edges, types, left } = drawn;\n\
\x20 const there = (count, without) => address(ref, `?tab=Graph&steps=${count}${without.map((type) => `&without=${type}`).join(\"\")}`);\n\
\x20 const key = (type) => {\n\
\x20   const isHidden = hidden.includes(type);\n\
\x20   const href = there(steps, isHidden ? hidden.filter((other) => other !== type) : [...hidden, type]);\n\
\x20   return h(\"a.key\", { href, id: `key ${type}`, role: \"switch\", \"aria-checked\": String(!isHidden) },\n\
\x20     svg(\"svg\", { width: 24, height: 8, \"aria-hidden\": \"true\" }, svg(`path.edge.${type}`, { d: \"M0 4H24\" })), headingOf(type).toLow\
erCase());\n\
\x20 };\n\
\x20 const picture = svg(\"svg\", { ...drawn.arrange(), role: \"group\", \"aria-label\": `${counted(nodes.size, \"entity\", \"entities\")} arou\
nd ${ref}` },\n\
\x20   [...edges].map(([name, edge]) => line(name, edge, nodes)), [...nodes].map(([other, node]) => box(other, node, ref)));\n\
\x20 const frame = h(\"div.frame\", { tabindex: 0, role: \"region\", \"aria-label\": \"Graph\" }, picture);\n\
\x20 requestAnimationFrame(() => { frame.scrollLeft = nodes.get(ref).x - (frame.clientWidth - WIDTH) / 2; });\n\
\x20 const step = (n) => h(\"a\", { href: there(n, hidden), \"aria-current\": n === steps && \"true\" }, n);\n\
\x20 return [h(\"div.bar\", h(\"span.steps\", \"Steps \", [1, 2, 3].map(step)), [...types].sort().map(key)), frame,\n\
\x20   left.size > 0 && h(\"p.status\", `${left.size} more have no room here; the overviews list them.`)];\n\
}\n\
";

/// `page/group.js`.
pub(crate) const GROUP_JS: &[u8] =
    b"// A group: all that it owns, also through the groups below it, its members, and its place in the tree of groups.\n\
\n\
import { link, rowFor } from \"./catalogue.js\";\n\
import { counted, h, listed, paged, section, show } from \"./dom.js\";\n\
import { result } from \"./find.js\";\n\
import { kindName, targets } from \"./refs.js\";\n\
import { around } from \"./server.js\";\n\
\n\
const MOST = 1000;\n\
\n\
export const OF_GROUPS = [\"ownerOf\", \"parentOf\", \"childOf\", \"hasMember\"];\n\
\n\
async function below(ref) {\n\
\x20 const groups = new Map();\n\
\x20 for (let front = [ref]; front.length > 0 && groups.size < MOST;) {\n\
\x20   const found = await around(front);\n\
\x20   front.forEach((group, i) => groups.set(group, found[i]));\n\
\x20   front = [...new Set(found.flatMap((group) => targets(group, \"parentOf\")))].filter((group) => !groups.has(group));\n\
\x20 }\n\
\x20 return groups;\n\
}\n\
\n\
async function above(ref, group) {\n\
\x20 const chain = [];\n\
\x20 for (let [next] = targets(group, \"childOf\"); next && next !== ref && !chain.includes(next);) {\n\
\x20   chain.push(next);\n\
\x20   [next] = targets((await around([next]))[0], \"childOf\");\n\
\x20 }\n\
\x20 return chain;\n\
}\n\
\n\
function branch(ref, groups, path) {\n\
\x20 const group = groups.get(ref);\n\
\x20 const children = targets(group, \"parentOf\").filter((child) => groups.has(child) && !path.includes(child));\n\
\x20 const [members, owned] = [\"hasMember\", \"ownerOf\"].map((type) => targets(group, type).length);\n\
\x20 return h(\"li\", link(ref), h(\"span.facts\", group ? ` ${counted(members, \"member\")} \xc2\xb7 owns ${owned}` : \" isn't in the catalogu\
e\"),\n\
\x20   children.length > 0 && h(\"ul\", children.map((child) => branch(child, groups, [...path, ref]))));\n\
}\n\
\n\
function owned(ref, groups) {\n\
\x20 const box = h(\"div\");\n\
\x20 const draw = (all) => {\n\
\x20   const refs = [...new Set((all ? [...groups.values()] : [groups.get(ref)]).flatMap((group) => targets(group, \"ownerOf\")))].sort();\n\
\x20   const kinds = Object.entries(Object.groupBy(refs, (other) => kindName(other.split(\":\")[0])));\n\
\x20   show(box, groups.size > 1 &&\n\
\x20     h(\"label\", { change: () => draw(!all) }, h(\"input\", { type: \"checkbox\", id: \"through\", checked: all }), \" also through the gr\
oups below it\"),\n\
\x20     h(\"p.status\", { role: \"status\" }, kinds.map(([kind, { length }]) => counted(length, kind)).join(\" \xc2\xb7 \") || \"Nothing.\"),\n\
\x20     refs.length > 0 && paged(\"What it owns\", refs, (other) => result(rowFor(other))));\n\
\x20 };\n\
\x20 draw(true);\n\
\x20 return box;\n\
}\n\
\n\
export async function groupSections(ref) {\n\
\x20 const groups = await below(ref);\n\
\x20 const chain = await above(ref, groups.get(ref));\n\
\x20 const tree = chain.reduce((inner, group) => h(\"li\", link(group), h(\"ul\", inner)), branch(ref, groups, []));\n\
\x20 return [section(\"What it owns\", owned(ref, groups)), listed(\"Members\", targets(groups.get(ref), \"hasMember\"), (user) => h(\"li\", li\
nk(user)), \"Nobody.\"),\n\
\x20   section(\"In the tree of groups\", h(\"ul.tree\", tree))];\n\
}\n\
";

/// `page/icon.svg`.
pub(crate) const ICON_SVG: &[u8] =
    b"<svg xmlns=\"http://www.w3.org/2000/svg\" viewBox=\"0 0 32 32\"><rect width=\"32\" height=\"32\" rx=\"7\" fill=\"#2459b8\"/><g fill=\"none\"\
\x20stroke=\"#fff\" stroke-width=\"2.2\"><path d=\"M11 10.5 21 16 11 21.5\"/><circle cx=\"10\" cy=\"10\" r=\"3.2\" fill=\"#2459b8\"/><circle cx\
=\"10\" cy=\"22\" r=\"3.2\" fill=\"#2459b8\"/><circle cx=\"22\" cy=\"16\" r=\"3.2\" fill=\"#fff\"/></g></svg>\n\
";

/// `page/main.js`.
pub(crate) const MAIN_JS: &[u8] =
    b"// Which page the address shows, the field of the search, and the keys.\n\
\n\
import { catalogue, listen, run } from \"./catalogue.js\";\n\
import { counted, find, h, number, show } from \"./dom.js\";\n\
import { entityPage } from \"./entity.js\";\n\
import { findPage } from \"./find.js\";\n\
import { addressOf, queryOf } from \"./search.js\";\n\
import { statePage } from \"./state.js\";\n\
\n\
const main = find(\"main\");\n\
const field = find(\"query\");\n\
const PAGES = { entity: entityPage, state: statePage };\n\
\n\
let leave;\n\
let turn = 0;\n\
\n\
function here() {\n\
\x20 const [path, options] = location.hash.replace(/^#\\/?/, \"\").split(\"?\");\n\
\x20 const [name, ...words] = path.split(\"/\");\n\
\x20 return { name, words, options: new URLSearchParams(options) };\n\
}\n\
\n\
// Shows what the address says.\n\
async function showAddress() {\n\
\x20 const { name, words, options } = here();\n\
\x20 const page = Object.hasOwn(PAGES, name) ? PAGES[name] : findPage;\n\
\x20 const box = h(\"div\");\n\
\x20 const mine = turn += 1;\n\
\x20 let leaving;\n\
\x20 leave?.();\n\
\x20 leave = undefined;\n\
\x20 find(\"notice\").hidden = true;\n\
\x20 for (const link of document.querySelectorAll(\"[data-page]\")) link.ariaCurrent = link.dataset.page === (name || \"find\") ? \"page\" : nu\
ll;\n\
\x20 try {\n\
\x20   leaving = await page(box, options, words.map(decodeURIComponent));\n\
\x20 } catch (fault) {\n\
\x20   show(box, h(\"section.empty\", h(\"h1\", { tabindex: -1 }, \"This can't be shown\"), h(\"p\", fault.message)));\n\
\x20 }\n\
\x20 if (mine !== turn) return leaving?.();\n\
\x20 leave = leaving;\n\
\x20 show(main, box);\n\
\x20 if (page !== findPage) main.querySelector(\"h1\").focus();\n\
\x20 else document.title = \"Catalogue\";\n\
\x20 return main.querySelector(\":focus:not(h1)\") ?? scrollTo(0, 0);\n\
}\n\
\n\
field.addEventListener(\"input\", () => {\n\
\x20 const { name, options } = here();\n\
\x20 const next = addressOf({ ...queryOf(name ? new URLSearchParams() : options), q: field.value, page: 1 });\n\
\x20 history[name ? \"pushState\" : \"replaceState\"](null, \"\", next);\n\
\x20 showAddress();\n\
});\n\
\n\
// Enter opens the first result.\n\
find(\"search\").addEventListener(\"submit\", (event) => {\n\
\x20 event.preventDefault();\n\
\x20 document.querySelector(\".results .title\")?.click();\n\
});\n\
\n\
document.addEventListener(\"keydown\", (event) => {\n\
\x20 const stops = [field, ...document.querySelectorAll(\".results .title\")];\n\
\x20 const step = { ArrowDown: 1, ArrowUp: -1 }[event.key];\n\
\x20 const at = stops.indexOf(document.activeElement);\n\
\x20 const next = event.key === \"/\" && !event.target.matches(\"input, select\") ? field : step && at >= 0 && stops[at + step];\n\
\x20 if (!next || event.ctrlKey || event.metaKey || event.altKey) return;\n\
\x20 next.focus();\n\
\x20 event.preventDefault();\n\
});\n\
\n\
listen(() => {\n\
\x20 const { rows, whole, total, trouble } = catalogue;\n\
\x20 find(\"count\").textContent = whole ? counted(rows.size, \"entity\", \"entities\") : `${number(rows.size)} of ${number(total)} entities lo\
aded`;\n\
\x20 find(\"live\").textContent = trouble ? `The server isn't heard: ${trouble.message}` : whole ? \"up to date\" : \"\";\n\
});\n\
addEventListener(\"hashchange\", showAddress);\n\
showAddress();\n\
run();\n\
";

/// `page/origin.js`.
pub(crate) const ORIGIN_JS: &[u8] =
    b"// Where an entity comes from: the text that it stands in, the Location that names it, and so on up to a provider.\n\
\n\
import { link } from \"./catalogue.js\";\n\
import { h } from \"./dom.js\";\n\
import { refIn } from \"./refs.js\";\n\
import { get } from \"./server.js\";\n\
\n\
const textOf = ({ metadata }) => metadata.annotations?.[\"backstage.io/managed-by-location\"] ?? \"\";\n\
\n\
function named(type, target, base) {\n\
\x20 if (type === \"file\") return decodeURI(new URL(target, `file://${base}`).href).replace(\"file://\", \"file:\");\n\
\x20 return `${type}:${type === \"url\" && URL.canParse(target, base) ? new URL(target, base).href : target}`;\n\
}\n\
\n\
function isNamedBy(text, location) {\n\
\x20 const [, from, base] = /^([^:]*):(.*)$/s.exec(textOf(location)) ?? [];\n\
\x20 const { type = from, target, targets = [] } = location.spec ?? {};\n\
\x20 return [target, ...targets].some((other) => typeof other === \"string\" && named(type, other, type === from ? base : \"/\") === text);\n\
}\n\
\n\
export async function origins(ref, entity) {\n\
\x20 const lines = [];\n\
\x20 const seen = new Set([ref]);\n\
\x20 let text = textOf(entity);\n\
\x20 const { items } = text ? await get(\"/entities/by-query?limit=1000&filter=kind=location&fields=kind,metadata,spec\") : {};\n\
\x20 while (text) {\n\
\x20   const holder = items.find((location) => !seen.has(refIn(location)) && isNamedBy(text, location));\n\
\x20   lines.push(h(\"li\", lines.length > 0 ? \"This stands in \" : \"It stands in \", h(\"code\", text), holder && [\", which is named by \",\
\x20link(refIn(holder))], \".\"));\n\
\x20   if (!holder) return h(\"ol\", lines);\n\
\x20   seen.add(refIn(holder));\n\
\x20   text = textOf(holder);\n\
\x20 }\n\
\x20 return h(\"ol\", lines, h(\"li\", lines.length > 0 ? \"A provider gives this one itself.\" : \"A provider gives it itself.\"));\n\
}\n\
";

/// `page/place.js`.
pub(crate) const PLACE_JS: &[u8] =
    b"// Learns where the feed is without its documents: a place ahead of it is refused with its own. It is a worker, since a browser\n\
// shows what is refused to a page as an error.\n\
\n\
const LAST = \"18446744073709551615\";\n\
\n\
async function placeIn(epoch, headers) {\n\
\x20 const answer = await (await fetch(`/changes?since=${epoch}.${LAST}`, { headers })).json();\n\
\x20 const [rule, place = \"\"] = answer.error?.message.split(\" \") ?? [];\n\
\x20 return rule === \"gone\" && place.split(\".\")[0] !== epoch ? placeIn(place.split(\".\")[0], headers) : answer.to ?? place;\n\
}\n\
\n\
addEventListener(\"message\", async ({ data }) => postMessage(await placeIn(\"0\", data).catch(() => \"\")));\n\
";

/// `page/refs.js`.
pub(crate) const REFS_JS: &[u8] =
    b"// References, `kind:namespace/name`, and the relations between them.\n\
\n\
import { find } from \"./dom.js\";\n\
\n\
export function parts(ref) {\n\
\x20 const [, kind, namespace, name] = /^([^:]*):([^/]*)\\/(.*)$/s.exec(ref) ?? [\"\", \"\", \"\", ref];\n\
\x20 return { kind, namespace, name };\n\
}\n\
\n\
export const refOf = (kind, namespace, name) => `${kind}:${namespace}/${name}`.toLowerCase();\n\
\n\
export const refIn = ({ kind, metadata }) => refOf(kind, metadata.namespace ?? \"default\", metadata.name);\n\
\n\
// The whole reference that a text stands for.\n\
export function resolved(text, kind, namespace) {\n\
\x20 const found = /^(?:([^:/]*):)?(?:([^/]*)\\/)?([^/]*)$/.exec(text);\n\
\x20 return found ? refOf(found[1] ?? kind, found[2] ?? namespace, found[3]) : \"\";\n\
}\n\
\n\
export const kindName = (kind) => (kind === \"api\" ? \"API\" : kind.charAt(0).toUpperCase() + kind.slice(1));\n\
\n\
export const address = (ref, options = \"\") => `#/entity/${Object.values(parts(ref)).map(encodeURIComponent).join(\"/\")}${options}`;\n\
\n\
export function shortName(ref) {\n\
\x20 const { namespace, name } = parts(ref);\n\
\x20 return namespace === \"default\" ? name : `${namespace}/${name}`;\n\
}\n\
\n\
// Each relation's heading, and the one of its pair that points away.\n\
const told = [...find(\"relations\").content.children];\n\
export const RELATIONS = Object.fromEntries(told.map(({ dataset, textContent }) => [dataset.type, [textContent, dataset.onward]]));\n\
\n\
export const headingOf = (type) => RELATIONS[type]?.[0] ?? type;\n\
\n\
export const targets = (entity, type) => (entity?.relations ?? []).filter((relation) => relation.type === type).map((relation) => relation.t\
argetRef);\n\
";

/// `page/search.js`.
pub(crate) const SEARCH_JS: &[u8] = b"// Search over what is in memory: words, facets and orders.\n\
\n\
export const FACETS = { kind: \"Kind\", type: \"Type\", lifecycle: \"Lifecycle\", owner: \"Owner\", tags: \"Tag\" };\n\
\n\
const NAMES = Object.keys(FACETS);\n\
\n\
// What an address says.\n\
export function queryOf(options) {\n\
\x20 const chosen = new Map(NAMES.map((facet) => [facet, new Set(options.getAll(facet))]).filter(([, { size }]) => size > 0));\n\
\x20 return { q: options.get(\"q\") ?? \"\", chosen, order: options.get(\"order\") ?? \"best\", page: Math.max(1, Math.trunc(options.get(\"page\
\")) || 1) };\n\
}\n\
\n\
export function addressOf({ q, chosen, order, page }) {\n\
\x20 const options = new URLSearchParams(q && { q });\n\
\x20 for (const [facet, values] of chosen) for (const value of values) options.append(facet, value);\n\
\x20 if (order !== \"best\") options.set(\"order\", order);\n\
\x20 if (page > 1) options.set(\"page\", page);\n\
\x20 return options.size > 0 ? `#/?${options}` : \"#/\";\n\
}\n\
\n\
export function toggled(query, facet, value) {\n\
\x20 const values = new Set(query.chosen.get(facet)).symmetricDifference(new Set([value]));\n\
\x20 return { ...query, chosen: new Map(query.chosen).set(facet, values), page: 1 };\n\
}\n\
\n\
const valuesOf = (row, facet) => (facet === \"tags\" ? row.tags : [row[facet]]);\n\
\n\
const compared = (a, b) => (a < b ? -1 : a > b ? 1 : 0);\n\
\n\
const sorted = { version: -1, orders: {} };\n\
\n\
// All rows in an order, kept until something changes. What has no value comes last.\n\
function rowsBy(order, rows, version) {\n\
\x20 if (sorted.version !== version) {\n\
\x20   const old = (sorted.orders.name ?? []).filter((row) => rows.get(row.ref) === row);\n\
\x20   const names = [...old, ...[...rows.values()].filter((row) => !row.isOld)].sort((a, b) => compared(a.label, b.label));\n\
\x20   for (const row of names) row.isOld = true;\n\
\x20   Object.assign(sorted, { version, orders: { name: names, best: names } });\n\
\x20 }\n\
\x20 if (!sorted.orders[order]) {\n\
\x20   const groups = Map.groupBy(sorted.orders.name, (row) => row[order] ?? \"\");\n\
\x20   const values = [...groups.keys()].sort((a, b) => compared(!a, !b) || compared(a, b));\n\
\x20   sorted.orders[order] = values.flatMap((value) => groups.get(value));\n\
\x20 }\n\
\x20 return sorted.orders[order];\n\
}\n\
\n\
// First those whose own names fit a phrase best.\n\
function ranked(matches, phrase) {\n\
\x20 const ranks = [[], [], [], []];\n\
\x20 for (const row of matches) {\n\
\x20   const ranksOf = [row.name.toLowerCase(), row.label].map((name) => (name === phrase ? 0 : name.startsWith(phrase) ? 1 : name.includes(phr\
ase) ? 2 : 3));\n\
\x20   ranks[Math.min(...ranksOf)].push(row);\n\
\x20 }\n\
\x20 return ranks.flat();\n\
}\n\
\n\
// The rows that match, and how many have each value of a facet, which counts what the other facets leave.\n\
export function search({ q, chosen, order }, rows, version) {\n\
\x20 const phrase = q.trim().toLowerCase();\n\
\x20 const words = phrase.split(/\\s+/);\n\
\x20 const counts = Object.fromEntries(NAMES.map((facet) => [facet, new Map()]));\n\
\x20 const count = (row, facet) => {\n\
\x20   for (const value of valuesOf(row, facet)) if (value) counts[facet].set(value, (counts[facet].get(value) ?? 0) + 1);\n\
\x20 };\n\
\x20 const matches = [];\n\
\x20 for (const row of rowsBy(order, rows, version)) {\n\
\x20   if (!words.every((word) => row.found.includes(word))) continue;\n\
\x20   const missed = [...chosen].filter(([facet, values]) => !valuesOf(row, facet).some((value) => values.has(value)));\n\
\x20   if (missed.length === 0) matches.push(row);\n\
\x20   for (const facet of NAMES) if (missed.every(([other]) => other === facet)) count(row, facet);\n\
\x20 }\n\
\x20 return { matches: order === \"best\" && phrase ? ranked(matches, phrase) : matches, counts };\n\
}\n\
\n\
export const foremost = (counts, most) => [...counts].sort((a, b) => b[1] - a[1] || compared(a[0], b[0])).slice(0, most);\n\
";

/// `page/sentences.js`.
pub(crate) const SENTENCES_JS: &[u8] =
    b"// What went wrong with an entity, in the sentences of the document.\n\
\n\
import { find, h } from \"./dom.js\";\n\
\n\
function sentenceOf(name, words) {\n\
\x20 const at = (rule) => find(\"sentences\").content.querySelector(`[data-rule=\"${CSS.escape(rule)}\"]`)?.textContent;\n\
\x20 const [first, second] = words;\n\
\x20 const [sentence, place] = {\n\
\x20   SchemaFault: [at(first) ?? at(name), words.slice(1).join(\" \")],\n\
\x20   ShelfFault: [at(`${name} ${second}`), first],\n\
\x20   MissingTarget: [at(name), words.join(\" \")],\n\
\x20   DuplicateOffer: [at(name), first],\n\
\x20 }[name] ?? [at(`${name} ${first}`) ?? at(name), second];\n\
\x20 return sentence?.replace(\"*\", () => place);\n\
}\n\
\n\
export const problem = ({ error = {}, message }) =>\n\
\x20 h(\"li\", sentenceOf(error.name, message.split(\" \")), \" \", h(\"code.rule\", `${error.name} ${message}`));\n\
\n\
const from = ({ origin, key }) => `${origin.replace(\"provider:\", \"provider \").replace(\"entity:\", \"\")} (key ${key})`;\n\
\n\
// An offer that waits while another one holds its reference.\n\
export const contest = ({ holder, waiting }) =>\n\
\x20 `It comes from ${from(holder)}. It is offered by ${from(waiting)} too, which waits until the first one lets go.`;\n\
";

/// `page/server.js`.
pub(crate) const SERVER_JS: &[u8] =
    b"// Questions to the server that this page came from, and to no other.\n\
\n\
import { find } from \"./dom.js\";\n\
\n\
const TOKEN = \"catalogue-token\";\n\
\n\
// The token that a person gave, kept for the tab alone.\n\
export function headers() {\n\
\x20 const token = sessionStorage.getItem(TOKEN);\n\
\x20 return token ? { Authorization: `Bearer ${token}` } : {};\n\
}\n\
\n\
let asking;\n\
\n\
// Asks for a token, once for all that wait.\n\
function tokenGiven() {\n\
\x20 const [dialog, field] = [find(\"token\"), find(\"token-field\")];\n\
\x20 asking ??= new Promise((done) => {\n\
\x20   field.value = \"\";\n\
\x20   dialog.returnValue = \"\";\n\
\x20   dialog.showModal();\n\
\x20   dialog.addEventListener(\"close\", () => {\n\
\x20     const given = dialog.returnValue === \"use\" && field.value !== \"\";\n\
\x20     if (given) sessionStorage.setItem(TOKEN, field.value.trim());\n\
\x20     asking = undefined;\n\
\x20     done(given);\n\
\x20   }, { once: true });\n\
\x20 });\n\
\x20 return asking;\n\
}\n\
\n\
export async function ask(path, options) {\n\
\x20 const response = await fetch(path, { cache: \"no-store\", headers: headers(), ...options });\n\
\x20 const text = await response.text();\n\
\x20 if (response.ok) return text;\n\
\x20 if (response.status === 401 && await tokenGiven()) return ask(path, options);\n\
\x20 throw Object.assign(new Error(/\"message\":\"([^\"]*)/.exec(text)?.[1] ?? text), { status: response.status });\n\
}\n\
\n\
export const get = async (path) => JSON.parse(await ask(path));\n\
\n\
export const post = async (path, body, reviver) => JSON.parse(await ask(path, { method: \"POST\", body: JSON.stringify(body) }), reviver);\n\
\n\
// Keeps whole numbers past 2^53 as they are written, where the browser can.\n\
export const exact = (key, value, context) =>\n\
\x20 (typeof value === \"number\" && !Number.isSafeInteger(value) && JSON.rawJSON ? JSON.rawJSON(context.source) : value);\n\
\n\
export const around = async (entityRefs) => (await post(\"/entities/by-refs\", { entityRefs, fields: [\"relations\"] })).items;\n\
";

/// `page/state.js`.
pub(crate) const STATE_JS: &[u8] =
    b"// The state of the catalogue: what waits, what is broken, contested or left over, and what changed.\n\
\n\
import { catalogue, link, listen } from \"./catalogue.js\";\n\
import { h, listed, number, ready, show } from \"./dom.js\";\n\
import { contest, problem } from \"./sentences.js\";\n\
import { ask, get } from \"./server.js\";\n\
\n\
const AGAIN = 5000;\n\
\n\
const change = ({ ref, what, time }) => h(\"li\", h(\"time\", time ? time.toLocaleTimeString() : \"earlier\"), ` ${what} `, link(ref));\n\
\n\
export async function statePage(box) {\n\
\x20 const load = () => Promise.all([ask(\"/state\"), get(\"/failed\"), get(\"/conflicts\"), get(\"/orphans\")]);\n\
\x20 const [lists, recent] = [h(\"div\"), h(\"div\")];\n\
\x20 const draw = ([line, failed, conflicts, orphans]) => {\n\
\x20   const words = line.trim().split(\" \");\n\
\x20   for (const count of box.querySelectorAll(\"[data-count]\")) count.textContent = number(Number(words[words.indexOf(count.dataset.count) +\
\x201]));\n\
\x20   show(lists, listed(\"Failed\", failed, ({ entityRef, items }) => h(\"li\", link(entityRef), h(\"ul.problems\", items.map(problem))), \"N\
othing.\"),\n\
\x20     listed(\"In conflict\", conflicts, (conflict) => h(\"li\", link(conflict.entityRef), h(\"p\", contest(conflict))), \"Nothing.\"),\n\
\x20     listed(\"Orphaned\", orphans, (ref) => h(\"li\", link(ref)), \"Nothing.\"));\n\
\x20 };\n\
\x20 const changed = () => show(recent, listed(\"What changed\", catalogue.recent, change, \"Nothing yet.\"));\n\
\x20 show(box, ready(\"state\"), h(\"div.split.even\", lists, recent));\n\
\x20 draw(await load());\n\
\x20 changed();\n\
\x20 const timer = setInterval(() => document.hidden || load().then(draw, () => undefined), AGAIN);\n\
\x20 const stop = listen(changed);\n\
\x20 return () => [clearInterval(timer), stop()];\n\
}\n\
";

/// `page/style.css`.
pub(crate) const STYLE_CSS: &[u8] =
    b"/* Colours stand first, for light and dark; then the frame, and then the parts in the order of the page. */\n\
\n\
:root {\n\
\x20 color-scheme: light dark;\n\
\x20 --ground: #f7f7f5;\n\
\x20 --surface: #ffffff;\n\
\x20 --text: #1b1d21;\n\
\x20 --quiet: #5b626d;\n\
\x20 --line: #dfe1e5;\n\
\x20 --accent: #1d55b5;\n\
\x20 --soft: #e9effa;\n\
\x20 --alarm: #a3341a;\n\
\x20 --alarm-soft: #fdf1ed;\n\
\x20 --component: #2a6fdb;\n\
\x20 --api: #7a4fd0;\n\
\x20 --resource: #0c7f86;\n\
\x20 --system: #a05a00;\n\
\x20 --domain: #b02a6b;\n\
\x20 --group: #2f7d32;\n\
\x20 --user: #55707f;\n\
\x20 --location: #77716a;\n\
\x20 font: 16px/1.5 system-ui, \"Segoe UI\", Roboto, \"Helvetica Neue\", \"Noto Sans\", \"Liberation Sans\", Arial, sans-serif;\n\
\x20 background: var(--ground);\n\
\x20 color: var(--text);\n\
}\n\
\n\
@media (prefers-color-scheme: dark) {\n\
\x20 :root {\n\
\x20   --ground: #121418;\n\
\x20   --surface: #1a1d23;\n\
\x20   --text: #e6e8eb;\n\
\x20   --quiet: #9aa3b0;\n\
\x20   --line: #2d323b;\n\
\x20   --accent: #8ab4ff;\n\
\x20   --soft: #212c42;\n\
\x20   --alarm: #ff9d80;\n\
\x20   --alarm-soft: #2d1d18;\n\
\x20   --component: #6fa4ff;\n\
\x20   --api: #b496ff;\n\
\x20   --resource: #4cc3c9;\n\
\x20   --system: #e3a04f;\n\
\x20   --domain: #f07fb2;\n\
\x20   --group: #74c777;\n\
\x20   --user: #9db8c7;\n\
\x20   --location: #b5aea5;\n\
\x20 }\n\
}\n\
\n\
* { box-sizing: border-box; }\n\
body { margin: 0; min-height: 100vh; display: flex; flex-direction: column; overflow-wrap: anywhere; }\n\
h1, h2, p, ul, ol, dl, dd, fieldset, pre { margin: 0; padding: 0; }\n\
h1 { font-size: 1.75rem; line-height: 1.2; font-weight: 650; letter-spacing: -0.01em; text-wrap: balance; }\n\
h2 { font-size: 0.8125rem; font-weight: 600; letter-spacing: 0.04em; text-transform: uppercase; color: var(--quiet); margin-bottom: 0.5rem; \
}\n\
a { color: var(--accent); text-decoration: none; }\n\
a:hover { text-decoration: underline; text-underline-offset: 0.15em; }\n\
:focus-visible { outline: 2px solid var(--accent); outline-offset: 2px; border-radius: 3px; }\n\
h1:focus-visible, main:focus-visible { outline: none; }\n\
ul, ol { list-style: none; }\n\
code, pre { font: 0.875em/1.55 ui-monospace, \"SF Mono\", Menlo, Consolas, \"DejaVu Sans Mono\", \"Liberation Mono\", monospace; }\n\
input, select, button { font: inherit; color: inherit; }\n\
button { background: var(--surface); border: 1px solid var(--line); border-radius: 6px; padding: 0.2rem 0.75rem; cursor: pointer; }\n\
button:hover:enabled { border-color: var(--accent); }\n\
button:disabled { color: var(--quiet); cursor: default; opacity: 0.6; }\n\
button.primary { background: var(--accent); border-color: var(--accent); color: var(--ground); }\n\
button.quiet { border: 0; background: none; padding: 0.15rem 0; color: var(--accent); font-size: 0.875rem; }\n\
.hidden, svg.hidden { position: absolute; width: 1px; height: 1px; overflow: hidden; clip-path: inset(50%); white-space: nowrap; }\n\
.skip { position: absolute; left: 1rem; top: -4rem; background: var(--surface); padding: 0.5rem 1rem; z-index: 2; }\n\
.skip:focus { top: 0.5rem; }\n\
\n\
/* the frame */\n\
.top {\n\
\x20 position: sticky;\n\
\x20 top: 0;\n\
\x20 z-index: 1;\n\
\x20 display: flex;\n\
\x20 align-items: center;\n\
\x20 gap: 1rem 1.5rem;\n\
\x20 padding: 0.65rem max(1.5rem, calc(50vw - 38rem));\n\
\x20 background: var(--surface);\n\
\x20 border-bottom: 1px solid var(--line);\n\
}\n\
.brand { display: flex; align-items: center; gap: 0.6rem; font-weight: 650; color: var(--text); }\n\
.brand:hover { text-decoration: none; }\n\
#search { position: relative; flex: 1; max-width: 40rem; margin-inline: auto; }\n\
#query { width: 100%; padding: 0.45rem 0.8rem; background: var(--ground); border: 1px solid var(--line); border-radius: 8px; }\n\
#query::placeholder { color: var(--quiet); opacity: 1; }\n\
#search kbd {\n\
\x20 position: absolute;\n\
\x20 right: 0.6rem;\n\
\x20 top: 0.5rem;\n\
\x20 font: 0.75rem/1.4 ui-monospace, monospace;\n\
\x20 color: var(--quiet);\n\
\x20 border: 1px solid var(--line);\n\
\x20 border-radius: 4px;\n\
\x20 padding: 0 0.4rem;\n\
\x20 background: var(--surface);\n\
}\n\
#query:focus + kbd, #query:not(:placeholder-shown) + kbd { display: none; }\n\
.top nav { display: flex; gap: 1.25rem; }\n\
.top nav a { color: var(--quiet); padding: 0.25rem 0; border-bottom: 2px solid transparent; }\n\
.top nav a[aria-current], .tabs a[aria-current] { color: var(--text); border-color: var(--accent); }\n\
main { flex: 1; width: 100%; max-width: 79rem; margin: 0 auto; padding: 1.75rem 1.5rem 3rem; }\n\
.foot {\n\
\x20 display: flex;\n\
\x20 gap: 1rem;\n\
\x20 justify-content: space-between;\n\
\x20 padding: 0.6rem max(1.5rem, calc(50vw - 38rem));\n\
\x20 font-size: 0.8125rem;\n\
\x20 color: var(--quiet);\n\
\x20 border-top: 1px solid var(--line);\n\
}\n\
#notice { max-width: 76rem; margin: 1rem auto 0; padding: 0.5rem 1rem; background: var(--soft); border-radius: 8px; }\n\
.split { display: grid; grid-template-columns: 14.5rem minmax(0, 1fr); gap: 2.5rem; align-items: start; }\n\
.split.entity { grid-template-columns: minmax(0, 1fr) 20rem; }\n\
.split.even { grid-template-columns: minmax(0, 1.4fr) minmax(0, 1fr); margin-top: 2rem; }\n\
section { margin-bottom: 2rem; }\n\
.status, .none, .facts, .name { color: var(--quiet); }\n\
.status { font-size: 0.875rem; }\n\
\n\
/* what a kind looks like */\n\
.dot { display: inline-block; flex: none; width: 0.6em; height: 0.6em; margin-right: 0.5em; border-radius: 50%; background: var(--location);\
\x20}\n\
.dot.component { background: var(--component); }\n\
.dot.api { background: var(--api); border-radius: 2px; }\n\
.dot.resource { background: var(--resource); border-radius: 2px; transform: rotate(45deg); }\n\
.dot.system { background: var(--system); border-radius: 2px; }\n\
.dot.domain { background: var(--domain); border-radius: 2px; transform: rotate(45deg); }\n\
.dot.group { background: var(--group); }\n\
.dot.user { background: var(--user); }\n\
.ref { white-space: normal; }\n\
.tag {\n\
\x20 display: inline-block;\n\
\x20 margin: 0 0.3rem 0.3rem 0;\n\
\x20 padding: 0 0.55rem;\n\
\x20 font-size: 0.8125rem;\n\
\x20 color: var(--text);\n\
\x20 background: var(--soft);\n\
\x20 border-radius: 999px;\n\
}\n\
\n\
/* find */\n\
details > summary { font-weight: 600; cursor: pointer; padding: 0.3rem 0; }\n\
fieldset { border: 0; margin-bottom: 1.5rem; min-width: 0; }\n\
legend { padding: 0; margin-bottom: 0.35rem; font-size: 0.8125rem; font-weight: 600; color: var(--quiet); }\n\
fieldset label { display: flex; gap: 0.55rem; align-items: baseline; padding: 0.12rem 0; font-size: 0.9375rem; cursor: pointer; }\n\
fieldset input { flex: none; translate: 0 0.1em; accent-color: var(--accent); }\n\
fieldset ul { max-height: 15.5rem; overflow-y: auto; scrollbar-width: thin; }\n\
.value { flex: 1; min-width: 0; }\n\
.n { color: var(--quiet); font-size: 0.8125rem; font-variant-numeric: tabular-nums; }\n\
.bar { display: flex; flex-wrap: wrap; gap: 0.5rem 1.25rem; align-items: center; margin-bottom: 0.75rem; }\n\
.bar .status { flex: 1; }\n\
.order { font-size: 0.875rem; color: var(--quiet); }\n\
select { background: var(--surface); color: var(--text); border: 1px solid var(--line); border-radius: 6px; padding: 0.2rem 0.4rem; }\n\
.results, .rows { background: var(--surface); border: 1px solid var(--line); border-radius: 10px; }\n\
.results:empty { display: none; }\n\
.results > li, .rows > li { padding: 0.65rem 1rem; border-top: 1px solid var(--line); }\n\
.results > li:first-child, .rows > li:first-child { border-top: 0; }\n\
.result { display: grid; grid-template-columns: minmax(0, 1fr) auto; gap: 0 1.5rem; }\n\
.result .title { font-weight: 600; }\n\
.result .name { margin-left: 0.6rem; font-size: 0.875rem; }\n\
.result .facts { display: flex; flex-direction: column; align-items: flex-end; font-size: 0.875rem; line-height: 1.7; }\n\
.about { display: -webkit-box; -webkit-line-clamp: 2; -webkit-box-orient: vertical; overflow: hidden; font-size: 0.9375rem; }\n\
.tags { margin-top: 0.35rem; }\n\
.pager { display: flex; gap: 1.25rem; align-items: center; justify-content: center; padding: 0.9rem 0 0; font-size: 0.9375rem; }\n\
.pager span { color: var(--quiet); }\n\
.empty { max-width: 44rem; margin: 3rem auto; }\n\
.empty p, .empty ul { margin-top: 0.9rem; }\n\
.empty li { margin-top: 0.35rem; }\n\
pre { overflow-x: auto; padding: 0.9rem 1.1rem; background: var(--surface); border: 1px solid var(--line); border-radius: 10px; }\n\
.empty pre { margin-top: 0.9rem; }\n\
\n\
/* an entity */\n\
header.entity { margin-bottom: 1.75rem; }\n\
p.kind { color: var(--quiet); font-size: 0.9375rem; }\n\
.reference { display: flex; flex-wrap: wrap; gap: 0.5rem 1rem; align-items: center; margin-top: 0.4rem; color: var(--quiet); }\n\
.tabs { display: flex; gap: 1.5rem; margin-top: 1.1rem; border-bottom: 1px solid var(--line); }\n\
.tabs a { padding: 0.35rem 0; margin-bottom: -1px; color: var(--quiet); border-bottom: 2px solid transparent; }\n\
.description { font-size: 1.0625rem; max-width: 42rem; margin-bottom: 2rem; white-space: pre-line; }\n\
.alarm { background: var(--alarm-soft); border-left: 3px solid var(--alarm); border-radius: 4px; padding: 0.8rem 1.1rem; margin-bottom: 2rem\
; }\n\
.alarm h2 { color: var(--alarm); }\n\
.alarm li + li { margin-top: 0.5rem; }\n\
.rule { color: var(--quiet); font-size: 0.8125rem; }\n\
aside { padding-left: 1.75rem; border-left: 1px solid var(--line); font-size: 0.9375rem; }\n\
aside dl { margin-bottom: 1.75rem; }\n\
aside dt { color: var(--quiet); font-size: 0.8125rem; margin-top: 0.65rem; }\n\
aside dd .ref { display: block; }\n\
aside ol li + li { margin-top: 0.4rem; }\n\
.rows .facts { font-size: 0.875rem; }\n\
.problems { margin: 0.3rem 0 0 1.1rem; font-size: 0.9375rem; }\n\
.rows p { font-size: 0.9375rem; color: var(--quiet); }\n\
.entity .rows > li, .even .rows > li { padding: 0.4rem 1rem; }\n\
.paged { margin-top: 0.6rem; }\n\
.tree, .tree ul { margin-left: 0.3rem; }\n\
.tree ul { padding-left: 1.2rem; border-left: 1px solid var(--line); }\n\
.tree li { padding: 0.2rem 0; }\n\
.paged > .rows:empty { display: none; }\n\
\n\
/* the graph */\n\
.frame { overflow-x: auto; background: var(--surface); border: 1px solid var(--line); border-radius: 10px; padding: 0.75rem; }\n\
.frame > svg { display: block; margin: 0 auto; }\n\
.graph .status { margin-top: 0.6rem; }\n\
.steps a { display: inline-block; min-width: 1.9rem; text-align: center; border: 1px solid var(--line); border-radius: 6px; margin-left: 0.2\
5rem; }\n\
.steps a[aria-current] { background: var(--soft); border-color: var(--accent); }\n\
.key {\n\
\x20 display: flex;\n\
\x20 align-items: center;\n\
\x20 gap: 0.4rem;\n\
\x20 padding: 0.1rem 0.6rem;\n\
\x20 font-size: 0.875rem;\n\
\x20 color: var(--text);\n\
\x20 border: 1px solid var(--line);\n\
\x20 border-radius: 999px;\n\
\x20 background: var(--surface);\n\
}\n\
.key[aria-checked=\"false\"] { color: var(--quiet); background: none; border-style: dashed; text-decoration: line-through; }\n\
marker path { fill: var(--quiet); }\n\
.edge { fill: none; stroke: var(--location); stroke-width: 1.6; }\n\
.edge.ownedBy { stroke: var(--group); stroke-dasharray: 2 4; }\n\
.edge.partOf { stroke: var(--system); }\n\
.edge.dependsOn { stroke: var(--component); stroke-width: 2; }\n\
.edge.providesApi { stroke: var(--api); }\n\
.edge.consumesApi { stroke: var(--api); stroke-dasharray: 7 4; }\n\
.edge.childOf, .edge.memberOf { stroke: var(--user); stroke-dasharray: 7 3 2 3; }\n\
.node rect { fill: var(--surface); stroke: var(--line); }\n\
.node:hover rect, .node:focus-visible rect { stroke: var(--accent); }\n\
.node.start > rect { fill: var(--soft); stroke: var(--accent); }\n\
.node.missing > rect { stroke-dasharray: 4 3; }\n\
.node text { fill: var(--text); font-size: 13px; font-weight: 600; }\n\
.node .small { fill: var(--quiet); font-size: 11px; font-weight: 400; }\n\
.node .side, .node.start .side { fill: var(--location); stroke: none; }\n\
.node.component .side { fill: var(--component); }\n\
.node.api .side { fill: var(--api); }\n\
.node.resource .side { fill: var(--resource); }\n\
.node.system .side { fill: var(--system); }\n\
.node.domain .side { fill: var(--domain); }\n\
.node.group .side { fill: var(--group); }\n\
.node.user .side { fill: var(--user); }\n\
\n\
/* the state */\n\
.counts {\n\
\x20 display: flex;\n\
\x20 flex-wrap: wrap;\n\
\x20 gap: 1px;\n\
\x20 margin-top: 1.25rem;\n\
\x20 background: var(--line);\n\
\x20 border: 1px solid var(--line);\n\
\x20 border-radius: 10px;\n\
\x20 overflow: hidden;\n\
}\n\
.counts div { flex: 1 0 9rem; display: flex; flex-direction: column-reverse; padding: 0.8rem 1.1rem; background: var(--surface); }\n\
.counts dd { font-size: 1.5rem; font-weight: 650; font-variant-numeric: tabular-nums; }\n\
.counts dt { font-size: 0.875rem; color: var(--quiet); }\n\
time { color: var(--quiet); font-variant-numeric: tabular-nums; font-size: 0.875rem; }\n\
\n\
/* the token */\n\
dialog { max-width: min(26rem, calc(100vw - 2rem)); padding: 1.5rem; color: var(--text); background: var(--surface); border: 1px solid var(-\
-line); border-radius: 12px; }\n\
dialog::backdrop { background: rgb(0 0 0 / 0.4); }\n\
dialog p { margin-bottom: 0.9rem; }\n\
dialog input {\n\
\x20 width: 100%;\n\
\x20 padding: 0.45rem 0.8rem;\n\
\x20 margin-bottom: 1rem;\n\
\x20 background: var(--ground);\n\
\x20 border: 1px solid var(--line);\n\
\x20 border-radius: 8px;\n\
}\n\
.actions { display: flex; gap: 0.75rem; justify-content: flex-end; margin: 0; }\n\
\n\
/* on a phone */\n\
@media (max-width: 50em) {\n\
\x20 .top { flex-wrap: wrap; gap: 0.6rem 1rem; padding: 0.65rem 1rem; }\n\
\x20 .top nav { margin-left: auto; }\n\
\x20 #search { order: 1; flex-basis: 100%; max-width: none; }\n\
\x20 #search kbd { display: none; }\n\
\x20 main { padding: 1.25rem 1rem 2rem; }\n\
\x20 .foot { padding: 0.6rem 1rem; }\n\
\x20 .split, .split.entity, .split.even { grid-template-columns: minmax(0, 1fr); gap: 1rem; }\n\
\x20 aside { padding: 1.25rem 0 0; border-left: 0; border-top: 1px solid var(--line); }\n\
\x20 h1 { font-size: 1.4rem; }\n\
\x20 .result { grid-template-columns: minmax(0, 1fr); }\n\
\x20 .result .facts { flex-flow: row wrap; gap: 0 1rem; align-items: baseline; }\n\
}\n\
\n\
@media (prefers-reduced-motion: no-preference) { a, button, .node rect { transition: border-color 0.12s, stroke 0.12s; } }\n\
";

/// `page/yaml.js`.
pub(crate) const YAML_JS: &[u8] = b"// A value as block YAML.\n\
\n\
const PLAIN = /^[A-Za-z_/](?:[\\w./@ +-]*[\\w./@+-])?$/;\n\
const WORDS = /^(?:true|false|null|yes|no|on|off|y|n)$/i;\n\
\n\
const isBranch = (value) => value instanceof Object && !JSON.isRawJSON?.(value);\n\
\n\
const scalar = (value) => (typeof value === \"string\" && PLAIN.test(value) && !WORDS.test(value) ? value : JSON.stringify(value));\n\
\n\
function leaf(value, indent) {\n\
\x20 if (!/^\\S.*\\n/.test(value) || /[^\\n\\x20-\\x7e\\u00a0-\\ud7ff]/.test(value)) return scalar(value);\n\
\x20 const end = value.endsWith(\"\\n\\n\") ? \"+\" : value.endsWith(\"\\n\") ? \"\" : \"-\";\n\
\x20 return `|${end}\\n${value.replace(/\\n$/, \"\").replaceAll(/^(?=.)/gm, indent)}`;\n\
}\n\
\n\
// What stands behind or below a key or a hyphen.\n\
export function yaml(value, indent = \"\") {\n\
\x20 if (!isBranch(value)) return leaf(value, indent);\n\
\x20 const isList = Array.isArray(value);\n\
\x20 const lines = Object.entries(value).map(([key, inner]) => {\n\
\x20   const text = yaml(inner, `${indent}  `);\n\
\x20   const isBlock = isBranch(inner) && Object.keys(inner).length > 0;\n\
\x20   return isList ? `${indent}- ${isBlock ? text.trimStart() : text}` : `${indent}${scalar(key)}:${isBlock ? \"\\n\" : \" \"}${text}`;\n\
\x20 });\n\
\x20 return lines.join(\"\\n\") || (isList ? \"[]\" : \"{}\");\n\
}\n\
";
