//! What becomes of a call or a landing, as it is drawn: the one place for it, beside the lines of the style and of the legend.
ghost use Rattle.std.specs.Prelude.{◌≡◌};
ghost use Rattle.sdb_model.specs.Report.{how_text_of};
ghost use Rattle.sdb_picture.specs.Marks.{came_word as came_word_lem, reply_word as reply_word_lem};
ghost use Rattle.sdb_picture.specs.Svg.{tip_text};

use sdb_model::How;
use sdb_types::Reply;

/// The class of a call's arrow in the style.
pub fn how_word(how: How) -> &'static str
    ensures { result.now ≡ how_text_of how }
{
    match how {
        How::Seen => "seen",
        How::Lost => "lost",
        How::Discarded => "dropped",
        How::Delayed => "delayed",
        How::Broken => "failed",
    }
}

/// The tip of a call's arrow, from its end.
pub fn tip_path(how: How) -> &'static str
    ensures { result.now ≡ tip_text how }
{
    match how {
        How::Seen => "l-10,-5v10z",
        How::Lost => "l-10,-5v10z",
        How::Discarded => "m-12,-5l10,10m0,-10l-10,10",
        How::Delayed => "m-12,-5l10,10m0,-10l-10,10",
        How::Broken => "m-10,-5h10v10h-10z",
    }
}

fn reply_word(reply: &Reply) -> &'static str
    ensures { result.now ≡ reply_word_lem reply.now }
{
    match reply {
        Reply::Found(None) => "none",
        Reply::Found(Some(_)) => "found",
        Reply::Rows(_) => "rows",
        Reply::Applied => "applied",
        Reply::NotMet(_) => "not met",
        Reply::NotAll(_, _) => "not met",
        Reply::Fault => "fault",
        Reply::NoMemory => "no memory",
    }
}

/// What came of a call, in a word.
pub fn came_word(how: How, reply: &Reply) -> &'static str
    ensures { result.now ≡ came_word_lem how reply.now }
{
    match how {
        How::Seen => reply_word(reply),
        How::Lost => how_word(how),
        How::Discarded => how_word(how),
        How::Delayed => how_word(how),
        How::Broken => how_word(how),
    }
}
