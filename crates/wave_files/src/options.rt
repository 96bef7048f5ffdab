//! Options among arguments.
ghost use Rattle.std.specs.Prelude.{◌≡◌, option_map, map, string_bytes};
ghost use Rattle.wave_files.specs.Options.{is_given, without, value_of, without_value};

/// Takes the option out of the arguments where it stands behind the first, once. Whether it stood there.
pub fn take_option(words: &mut Vec<String>, option: &str) -> bool
    ensures given { result ≡ is_given option.now (map string_bytes words.old.items) }
    ensures left { map string_bytes words.new.items ≡ without option.now (map string_bytes words.old.items) }
{
    let mut place = 1;
    while place < words.len() {
        if words[place].as_str() == option {
            drop(words.remove(place));
            return true;
        }
        place += 1;
    }
    false
}

/// Takes the option and the word behind it, which is what it says, out of the arguments, where it stands behind
/// the first, once. One with no word behind it is left.
pub fn take_value(words: &mut Vec<String>, option: &str) -> Option<String>
    ensures value { option_map string_bytes result ≡ value_of option.now (map string_bytes words.old.items) }
    ensures left { map string_bytes words.new.items ≡ without_value option.now (map string_bytes words.old.items) }
{
    let mut place = 1;
    while place < words.len() {
        if words[place].as_str() == option {
            if place + 1 == words.len() {
                return None;
            }
            drop(words.remove(place));
            return Some(words.remove(place));
        }
        place += 1;
    }
    None
}
