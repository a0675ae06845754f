//! The laws of the page, and of messages that aren't admitted.
ghost use Rattle.std.specs.Prelude.{◌≡◌, Some, codes, bytes_eq, true, []};
ghost use Rattle.cat_access.specs.Browser.{is_admitted, is_from_browser, no_access};
ghost use Rattle.cat_api.specs.Senders.{ChangesNothing};
ghost use Rattle.cat_api.specs.Wire.{Wired, wire_after, wire_reply};
ghost use Rattle.cat_connection.specs.Worded.{Word};
ghost use Rattle.cat_http.specs.Reply.{reply_bytes};
ghost use Rattle.cat_http.specs.declared.message.Message.{Message};
ghost use Rattle.cat_http.specs.declared.status.Status.TheVariants as status;
ghost use Rattle.cat_model.specs.Catalogue.{Rules};
ghost use Rattle.cat_page.specs.Files.{bytes, content, file_at};
ghost use Rattle.cat_page.specs.declared.file.File.{File};
ghost use Rattle.cat_requests.specs.Requests.{verb_of};
ghost use Rattle.cat_requests.specs.declared.request.Verb.TheVariants.{Get};

use cat_http::message::Message;

/// Whatever the catalogue and its feed are, an admitted message that reads a file of the page leaves them as they are, and is answered with status 200 by the file's bytes.
/// The reply to HEAD is the same without the bytes.
#[tactic(auto, using(crate::proofs::Shown::page_stays, crate::proofs::Shown::page_shown))]
pub fn the_page_is_shown()
    ensures stays { (rules : Rules) (w : Wired) (word : Word) (m : Message) (f : File) → is_admitted no_access m ≡ true → file_at m.path ≡ Some f → verb_of m.method ≡ Some Get → wire_after rules w word m ≡ w }
    ensures shown { (rules : Rules) (w : Wired) (word : Word) (m : Message) (f : File) → is_admitted no_access m ≡ true → file_at m.path ≡ Some f → verb_of m.method ≡ Some Get → wire_reply rules w word m ≡ reply_bytes (record { status = status.Ok; content = content f; body = bytes f; allow = []; close = m.last; bare = bytes_eq m.method (codes "HEAD"); browser = is_from_browser m }) }
{}

/// A message that isn't admitted leaves the catalogue and its feed as they were. It is answered 403 `origin`, and the reply tells nothing of them.
pub fn foreign_pages_change_nothing(_message: &Message)
    ensures { ChangesNothing _message.now }
{}
