//! Words of other programs for disks, and the commands that do what they do there.

/// The commands that do what this word asks another program for. None if no other program's word is known so.
fn commands_for(word: &str) -> Option<&'static str> {
    match word {
        "dir" | "directory" | "ls" => Some("`list`"),
        "validate" => Some("`check` and `repair`"),
        "scratch" | "rm" => Some("`delete`"),
        "hexdump" => Some("`sector` and `bytes`"),
        "read" => Some("`bytes`"),
        "write" => Some("`put`"),
        "attach" | "detach" => Some("the image's path in each command"),
        "convert" => Some("`trim` or `extract`"),
        "cp" => Some("`copy-file` or `copy`"),
        "hash" | "md5" | "sha1" => Some("`check --json`"),
        "mkdir" | "n0" => Some("`new`"),
        "mv" | "ren" => Some("`rename`"),
        "type" | "cat" => Some("`bytes --text`"),
        "version" => Some("`--version`"),
        _ => None,
    }
}

/// The word among these that is taken for a command, and the commands that do what it asks another program for. These texts
/// begin with the name by which the program was called. None if the word isn't one of another program's.
pub(crate) fn other_word<'a>(texts: &[&'a str]) -> Option<(&'a str, &'static str)> {
    let word = match texts.get(1)? {
        &"help" => texts.get(2)?,
        word => word,
    };
    Some((word, commands_for(word)?))
}
