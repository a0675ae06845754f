//! The files of the page: which there are, and the path, the content and the bytes of each. Made by tools/page.
ghost use Rattle.std.specs.Prelude.{◌≡◌};
ghost use Rattle.cat_page.specs.Files as spec;

use crate::texts;
use cat_http::content::Content;

/// A file of the page.
#[derive(Clone, Copy, Debug, Drop, PartialEq, Eq)]
pub enum File {
    /// `page/index.html`.
    IndexHtml,
    /// `page/catalogue.js`.
    CatalogueJs,
    /// `page/dom.js`.
    DomJs,
    /// `page/entity.js`.
    EntityJs,
    /// `page/find.js`.
    FindJs,
    /// `page/graph.js`.
    GraphJs,
    /// `page/group.js`.
    GroupJs,
    /// `page/icon.svg`.
    IconSvg,
    /// `page/main.js`.
    MainJs,
    /// `page/origin.js`.
    OriginJs,
    /// `page/place.js`.
    PlaceJs,
    /// `page/refs.js`.
    RefsJs,
    /// `page/search.js`.
    SearchJs,
    /// `page/sentences.js`.
    SentencesJs,
    /// `page/server.js`.
    ServerJs,
    /// `page/state.js`.
    StateJs,
    /// `page/style.css`.
    StyleCss,
    /// `page/yaml.js`.
    YamlJs,
}

const FILES: [File; 18] = [
    File::IndexHtml,
    File::CatalogueJs,
    File::DomJs,
    File::EntityJs,
    File::FindJs,
    File::GraphJs,
    File::GroupJs,
    File::IconSvg,
    File::MainJs,
    File::OriginJs,
    File::PlaceJs,
    File::RefsJs,
    File::SearchJs,
    File::SentencesJs,
    File::ServerJs,
    File::StateJs,
    File::StyleCss,
    File::YamlJs,
];

impl File {
    /// The path that names it.
    pub fn path(self) -> &'static str
        ensures { result.now ≡ spec.path self }
    {
        match self {
            File::IndexHtml => "/",
            File::CatalogueJs => "/page/catalogue.js",
            File::DomJs => "/page/dom.js",
            File::EntityJs => "/page/entity.js",
            File::FindJs => "/page/find.js",
            File::GraphJs => "/page/graph.js",
            File::GroupJs => "/page/group.js",
            File::IconSvg => "/page/icon.svg",
            File::MainJs => "/page/main.js",
            File::OriginJs => "/page/origin.js",
            File::PlaceJs => "/page/place.js",
            File::RefsJs => "/page/refs.js",
            File::SearchJs => "/page/search.js",
            File::SentencesJs => "/page/sentences.js",
            File::ServerJs => "/page/server.js",
            File::StateJs => "/page/state.js",
            File::StyleCss => "/page/style.css",
            File::YamlJs => "/page/yaml.js",
        }
    }

    /// What it is.
    pub fn content(self) -> Content
        ensures { result ≡ spec.content self }
    {
        match self {
            File::IndexHtml => Content::Document,
            File::CatalogueJs => Content::Script,
            File::DomJs => Content::Script,
            File::EntityJs => Content::Script,
            File::FindJs => Content::Script,
            File::GraphJs => Content::Script,
            File::GroupJs => Content::Script,
            File::IconSvg => Content::Picture,
            File::MainJs => Content::Script,
            File::OriginJs => Content::Script,
            File::PlaceJs => Content::Script,
            File::RefsJs => Content::Script,
            File::SearchJs => Content::Script,
            File::SentencesJs => Content::Script,
            File::ServerJs => Content::Script,
            File::StateJs => Content::Script,
            File::StyleCss => Content::Style,
            File::YamlJs => Content::Script,
        }
    }

    /// Its bytes.
    pub fn bytes(self) -> &'static [u8]
        ensures { result.now ≡ spec.bytes self }
    {
        match self {
            File::IndexHtml => texts::INDEX_HTML,
            File::CatalogueJs => texts::CATALOGUE_JS,
            File::DomJs => texts::DOM_JS,
            File::EntityJs => texts::ENTITY_JS,
            File::FindJs => texts::FIND_JS,
            File::GraphJs => texts::GRAPH_JS,
            File::GroupJs => texts::GROUP_JS,
            File::IconSvg => texts::ICON_SVG,
            File::MainJs => texts::MAIN_JS,
            File::OriginJs => texts::ORIGIN_JS,
            File::PlaceJs => texts::PLACE_JS,
            File::RefsJs => texts::REFS_JS,
            File::SearchJs => texts::SEARCH_JS,
            File::SentencesJs => texts::SENTENCES_JS,
            File::ServerJs => texts::SERVER_JS,
            File::StateJs => texts::STATE_JS,
            File::StyleCss => texts::STYLE_CSS,
            File::YamlJs => texts::YAML_JS,
        }
    }
}

/// The file that a path names, if there is one.
pub fn file_at(path: &[u8]) -> Option<File>
    ensures { result ≡ spec.file_at path.now }
{
    FILES
        .iter()
        .copied()
        .find(|file| file.path().as_bytes() == path)
}
