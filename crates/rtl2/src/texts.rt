/// What `--version` says.
pub const VERSION: &str = "rtl2 0.1\n";

/// What `--help` says, and wrong words on standard error.
pub const USAGE: &str = "\
rtl2 compiles RTL/2 modules for the PDP-11, links them and runs the image under its supervisor.

  rtl2 go SYSTEM TICKS LIMIT NAME      compile, link, write NAME.IMG, run, write NAME.RPT
  rtl2 compile SOURCE OBJECT           compile a module, and write its object
  rtl2 link SYSTEM IMAGE MAP           link a system, and write its image and its map
  rtl2 stacks SYSTEM                   put what the procedures and tasks need of their stacks
  rtl2 run IMAGE TICKS LIMIT REPORT    run an image, and write the report of the run
  rtl2 show OBJECT                     put the listing of an object
  rtl2 gen N NAME                      go with a system of N procedures that is made up
  rtl2 --help                          this text
  rtl2 --version                       the version

SYSTEM names the modules and tasks, TICKS the clock's ticks, LIMIT is the most instructions to run
(1 to 10 digits, up to 4000000000). Standard input and output are the console of the run.
";

// What is wrong with words that no command has.

pub const NOTHING_ASKED: &str = "rtl2: there is no command\n\n";

pub const NO_TEXT: &str = "rtl2: a word isn't in UTF-8\n\n";

pub const UNKNOWN_COMMAND: &str = "rtl2: the first word is no command\n\n";

pub const OTHER_WORDS: &str = "rtl2: the command takes other words\n\n";

pub const BAD_LIMIT: &str = "\
rtl2: LIMIT isn't a number of 1 to 10 digits up to 4000000000, or a word is empty

";

pub const BAD_SIZE: &str = "\
rtl2: N isn't a number from 1 to 10000, or NAME has a blank or isn't in ASCII

";

/// Of a refusal by `go` or `run`.
pub const REPORTED: &str = "rtl2: refused; the fault line is in the report\n";

pub const UNWRITTEN: &str = "rtl2: a file or standard output can't be written\n";

pub const OUT_OF_MEMORY: &str = "rtl2: out of memory\n";
