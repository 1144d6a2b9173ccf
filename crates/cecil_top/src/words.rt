ghost use Rattle.std.specs.Prelude.{◌≡◌, map, string_bytes};
ghost use Rattle.std.specs.Option.{option_map};
ghost use Rattle.cecil_top.specs.ToolWords.{job_asked};

use cecil_inspect::is_name;

/// The name of the job file that the words `run JOB` give. None where the words are others.
pub(crate) fn job_asked(words: &[String]) -> Option<&str>
    ensures { option_map (λ name. name.now) result ≡ job_asked (map string_bytes words.now) }
{
    match words {
        [command, name] => {
            if command.as_bytes() != b"run".as_slice() || !is_name(name.as_str()) {
                return None;
            }
            Some(name.as_str())
        }
        _ => None,
    }
}
