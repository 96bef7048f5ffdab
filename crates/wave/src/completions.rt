// What a shell reads to complete the arguments of the program.
ghost use Rattle.std.specs.Prelude.{MatchOption};
ghost use Rattle.wave.specs.Completions.{IsScript, HasNoScript};

const BASH: &str = "# Completes the arguments of wave in bash.
_wave() {
    local IFS=$' \\t\\n' word=${COMP_WORDS[COMP_CWORD]} words='' has_type='' other
    if ((COMP_CWORD == 1)); then
        words=' value call read format check completions help version --help --version '
    else
        case ${COMP_WORDS[1]} in
        value | call | read | format | check)
            case ${COMP_WORDS[1]} in
            value) words=' --lines --pretty --quiet ' ;;
            call | read) words=' --lines --pretty --quiet --type ' ;;
            format) words=' --check --write --width --indent ' ;;
            check) words=' --type --format ' ;;
            esac
            if ((COMP_CWORD == 2)); then words+=' --help '; fi
            for other in \"${COMP_WORDS[@]:2:COMP_CWORD-2}\"; do
                case $other in
                --type | -t) words=${words/ --type / } has_type=yes ;;
                -?*) words=${words/ $other / } ;;
                *) has_type=yes ;;
                esac
            done
            if [[ ${COMP_WORDS[1]} == @(read|check) && -z $has_type ]]; then
                words+=' bytes perms status response example counts quad '
            fi
            case ${COMP_WORDS[COMP_CWORD - 1]} in
            --type | -t | --width | --indent) words='' ;;
            --format) words=' short json ' ;;
            esac
            ;;
        help)
            if ((COMP_CWORD == 2)); then words=' value call read format check completions '; fi
            ;;
        completions)
            if ((COMP_CWORD == 2)); then words=' bash zsh fish --help '; fi
            ;;
        esac
    fi
    COMPREPLY=($(compgen -W \"$words\" -- \"$word\"))
}
complete -o bashdefault -o default -F _wave wave
";

const ZSH: &str = "#compdef wave
_wave() {
    local line state
    local -a commands pages samples options file
    commands=(
        'value:read a value without a type'
        'call:read a call, without types or at the type of a function'
        'read:read a value at a type'
        'format:lay values out over lines'
        'check:tell all that is wrong in files at a type'
        'help:print the help, or the page of a command'
        'version:print the version'
        'completions:print a script for a shell'
    )
    pages=(value call read format check completions)
    samples=(
        'bytes:list<u8>'
        'perms:flags { read, write, exec }'
        'status:enum { ok, not-found }'
        'response:variant { empty, body(list<u8>), err(string) }'
        'example:record { must-have: u8, optional: option<u8> }'
        'counts:map<string, u32>'
        'quad:list<u8, 4>'
    )
    options=(
        '--lines[read each line of the input as a text of its own]'
        '--pretty[lay out over lines what is printed]'
        '--quiet[print values only on standard output]'
        '--help[print the page of the command]'
    )
    file=(
        '--type[read the type from a file]:file:_files'
        '-t[read the type from a file]:file:_files'
    )
    _arguments -C '--help[print the help]' '--version[print the version]' '1: :->command' '*:: :->rest'
    case $state in
    command) _describe -t commands command commands ;;
    rest)
        case $line[1] in
        value) _arguments $options '*:file:_files' ;;
        call) _arguments $options $file '*:file:_files' ;;
        read) _arguments $options $file '1:type:{ _describe -t types type samples }' '*:file:_files' ;;
        format)
            _arguments '--check[print the names of files that are laid out otherwise]' \\
                '--write[put the layout in place of the file]' '--width[how long a line may be]:number' \\
                '--indent[how far a level is indented]:number' '--help[print the page of the command]' '*:file:_files'
            ;;
        check)
            _arguments $file '--format[how faults are told]:format:(short json)' '--help[print the page of the command]' \\
                '1:type:{ _describe -t types type samples }' '*:file:_files'
            ;;
        help) _arguments '1:command:($pages)' ;;
        completions) _arguments '--help[print the page of the command]' '1:shell:(bash zsh fish)' ;;
        esac
        ;;
    esac
}
if [ \"$funcstack[1]\" = _wave ]; then _wave \"$@\"; else compdef _wave wave; fi
";

const FISH: &str = "# Completes the arguments of wave in fish.
complete -c wave -n __fish_use_subcommand -f -a value -d 'read a value without a type'
complete -c wave -n __fish_use_subcommand -f -a call -d 'read a call, without types or at the type of a function'
complete -c wave -n __fish_use_subcommand -f -a read -d 'read a value at a type'
complete -c wave -n __fish_use_subcommand -f -a format -d 'lay values out over lines'
complete -c wave -n __fish_use_subcommand -f -a check -d 'tell all that is wrong in files at a type'
complete -c wave -n __fish_use_subcommand -f -a help -d 'print the help, or the page of a command'
complete -c wave -n __fish_use_subcommand -f -a version -d 'print the version'
complete -c wave -n __fish_use_subcommand -f -a completions -d 'print a script for a shell'
complete -c wave -n __fish_use_subcommand -l help -d 'print the help'
complete -c wave -n __fish_use_subcommand -l version -d 'print the version'
complete -c wave -n '__fish_seen_subcommand_from value call read' -l lines -d 'read each line of the input as a text of its own'
complete -c wave -n '__fish_seen_subcommand_from value call read' -l pretty -d 'lay out over lines what is printed'
complete -c wave -n '__fish_seen_subcommand_from value call read' -l quiet -d 'print values only on standard output'
complete -c wave -n '__fish_seen_subcommand_from call read check' -l type -s t -r -d 'read the type from a file'
complete -c wave -n '__fish_seen_subcommand_from format' -l check -d 'print the names of files that are laid out otherwise'
complete -c wave -n '__fish_seen_subcommand_from format' -l write -d 'put the layout in place of the file'
complete -c wave -n '__fish_seen_subcommand_from format' -l width -x -d 'how long a line may be'
complete -c wave -n '__fish_seen_subcommand_from format' -l indent -x -d 'how far a level is indented'
complete -c wave -n '__fish_seen_subcommand_from check' -l format -x -a 'short json' -d 'how faults are told'
complete -c wave -n '__fish_seen_subcommand_from value call read format check completions' -l help -d 'print the page of the command'
complete -c wave -n '__fish_seen_subcommand_from read check' -a bytes -d 'list<u8>'
complete -c wave -n '__fish_seen_subcommand_from read check' -a perms -d 'flags { read, write, exec }'
complete -c wave -n '__fish_seen_subcommand_from read check' -a status -d 'enum { ok, not-found }'
complete -c wave -n '__fish_seen_subcommand_from read check' -a response -d 'variant { empty, body(list<u8>), err(string) }'
complete -c wave -n '__fish_seen_subcommand_from read check' -a example -d 'record { must-have: u8, optional: option<u8> }'
complete -c wave -n '__fish_seen_subcommand_from read check' -a counts -d 'map<string, u32>'
complete -c wave -n '__fish_seen_subcommand_from read check' -a quad -d 'list<u8, 4>'
complete -c wave -n '__fish_seen_subcommand_from help' -f -a 'value call read format check completions'
complete -c wave -n '__fish_seen_subcommand_from completions' -f -a 'bash zsh fish'
";

/// The script for the shell.
#[tactic(auto, using(crate::proofs::Scripts::bash_is, crate::proofs::Scripts::zsh_is, crate::proofs::Scripts::fish_is))]
pub fn script_of(shell: &str) -> Option<&'static str>
    ensures { MatchOption result
        (HasNoScript shell.now)
        (λ said. IsScript shell.now said.now) }
{
    match shell {
        "bash" => Some(BASH),
        "zsh" => Some(ZSH),
        "fish" => Some(FISH),
        _ => None,
    }
}
