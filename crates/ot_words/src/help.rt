//! What the program's help says besides the list of words.

/// Of the program.
pub const ALL: &str = "\
Status 0: done. 1: a refused input (its line or byte is named on standard error), a refused instruction, a verdict against,
or a fault of reading, writing or memory. 2: words that are not understood, or help.
A first run:  printf 'clients 1\\nedit 0 [\"a\"]\\ntake 0\\nack 0\\n' | otbench run
The forms of schedules, images, traces and commands: docs/FORMATS.md; how to use them: docs/GUIDE.md.";

/// Of `run`.
pub const RUN: &str = "\
Reads a schedule's text, or with --image its image, on standard input. Prints what each read shows, where the run stopped if
an instruction was refused, and each client and the server at the end; with --json each of these as a line of JSON.
Example:  printf 'clients 1\\nedit 0 [\"a\"]\\ntake 0\\nack 0\\nread 0\\n' | otbench run
Status 0: all instructions were performed. 1: one was refused, or the input was, or a fault of reading, writing or memory.
The form of a schedule: docs/FORMATS.md, 'The text of a schedule'; the lines: 'Printed lines'.";

/// Of `check`.
pub const CHECK: &str = "\
Reads a schedule's text on standard input. Prints where the run stopped if an instruction was refused; then whether all is
quiet, or the first thing that is not, or with --all each, one on a line; then the verdict of the schedule's trace. With --json
the same is one line of JSON.
Example:  printf 'clients 2\\nedit 0 [\"a\"]\\ntake 0\\nack 0\\ndeliver 1\\n' | otbench check
Status 0: all instructions were performed. 1: one was refused, the trace is too large, or the input was refused, or a fault of
reading, writing or memory. The lines: docs/FORMATS.md, 'Verdicts of a schedule'.";

/// Of `debug`.
pub const DEBUG: &str = "\
Reads a schedule's text, a line '%%', and commands, one on a line; each is answered before the next one is read:
  run            to the next break, watched change, refusal or the end
  step N         N instructions on
  back N         N instructions back
  break N        stop runs at place N; clear N takes it away
  watch doc C    stop runs where the document of client C changes; watch state C: its state; watch server: the server
  unwatch        no watches
  where          the place
  show           each client and the server as they are
Example:  printf 'clients 1\\nedit 0 [\"a\"]\\n%%%%\\nstep 1\\nshow\\nback 1\\n' | otbench debug
Status 0: done. 1: a bad command, a refused instruction or 'no memory' was among the answers, or the schedule was refused,
or a fault of reading or writing. The answers: docs/FORMATS.md, 'Debugger commands'.";

/// Of `asm`.
pub const ASM: &str = "\
Reads a schedule's text on standard input and writes its image, the compact form for tools, on standard output.
Example:  printf 'clients 1\\nedit 0 [\"a\"]\\n' | otbench asm > a.image
Status 0: done. 1: the text is refused, or a fault of reading, writing or memory.
The form: docs/FORMATS.md, 'The image of a schedule'.";

/// Of `dis`.
pub const DIS: &str = "\
Reads a schedule's image on standard input and writes its canonical text.
Example:  printf 'clients 1\\nedit 0 [\"a\"]\\n' | otbench asm | otbench dis
Status 0: done. 1: the image is refused (the byte is named on standard error), or a fault of reading, writing or memory.
The form: docs/FORMATS.md, 'The image of a schedule'.";

/// Of `judge`.
pub const JUDGE: &str = "\
Reads a trace, a JSON object that any program may have recorded, on standard input: what each replica did, saw and returned.
Prints 'holds', or the first violation; with --json as one line of JSON.
Example:  printf '{\"replicas\":1,\"start\":[],\"events\":[]}' | otbench judge
Status 0: the property holds. 1: it does not, or the trace is refused, or a fault of reading, writing or memory.
The form: docs/FORMATS.md, 'Traces'.";

/// Of `steps`.
pub const STEPS: &str = "\
Reads a schedule's text on standard input. Prints its run as lines of JSON: the opening, one line for each instruction with
what it changed, where the run stopped if an instruction was refused, and whether all is quiet at the end.
Example:  printf 'clients 1\\nedit 0 [\"a\"]\\ntake 0\\nack 0\\n' | otbench steps
Status 0: all instructions were performed. 1: one was refused, or the input was, or a fault of reading, writing or memory.
The lines: docs/FORMATS.md, 'Steps'.";

/// Of `explain`.
pub const EXPLAIN: &str = "\
Reads a schedule's text on standard input. Tells its run in words: what each instruction did, with its line of the text and its
number, why one is refused and what would repair it; and at the end whether the documents must agree, and to what. Of a text that
is no schedule: the column and the cause of its fault.
With --json it prints one line of JSON in place of the words: how many instructions were performed, why the next one was refused, and
whether the documents must agree.
With --image it reads a schedule's image and tells the run of the text that 'otbench dis' writes of it; of bytes that are no image: the
field of the first fault, what stands there and what is wanted.
With --trace it reads a trace as 'otbench judge' does, and judges it. With --plan it reads a plan as 'otbench threads' does, and
says what it is. Of a text that is none: where its first fault is, what stands there and what is wanted; of one that is no JSON,
the line, the column and the cause.
Example:  printf 'clients 1\\nedit 0 [\"a\"]\\ntake 0\\nack 0\\n' | otbench explain
          printf '{\"replicas\":1,\"start\":[[0]],\"events\":[]}' | otbench explain --trace
Status 0: all instructions were performed, the trace's property holds, or the input is a plan. 1: it does not, an instruction was
refused, or the input was, or a fault of reading, writing or memory. The words: docs/FORMATS.md, 'Explain'.";

/// Of `conform`.
pub const CONFORM: &str = "\
Reads a schedule's text, a line '%%', and the lines that a port of ot.js printed while it performed the schedule, in the form of
'otbench steps'. Says that the port conforms and how much was compared, or the first difference: where, whose, which value, what
was found and what ot.js has. A key that the port does not print is not compared; one that 'otbench steps' does not have is named.
With --sparse an instruction without a line is passed over too, so that a line for one instruction is enough; its place says which.
With --json the answer is one line of JSON, made of the same values.
With --many the input is sessions, each a schedule's text, a line '%%', the port's lines and a line '%%'. Says how many conform and how
much was compared of all, or the number of the first that does not conform, its schedule and its answer; with --all that of each.
Example:  printf 'clients 1\\nedit 0 [\"a\"]\\n%%%%\\n{\"at\":1,\"document\":\"a\"}\\n' | otbench conform
Status 0: conforms. 1: differs, or nothing was compared, or nothing can be compared for a limit of otbench, or the schedule was
refused, or a fault of reading, writing or memory. The lines and the answer: docs/FORMATS.md, 'Conform'.";

/// Of `threads`.
pub const THREADS: &str = "\
Reads a plan, a JSON object that says what each client types, on standard input. Has it typed by workers on threads, and
prints the schedule that they recorded, with its end as comments, once it is found to follow the plan.
Example:  printf '{\"clients\":2,\"workers\":2,\"typing\":[[{\"at\":0,\"insert\":\"a\"}],[]]}' | otbench threads
Status 0: it was printed. 1: the plan is refused or could not be carried out, or a fault of reading, writing or memory.
The form: docs/FORMATS.md, 'Plans'.";

/// Of `complete`.
pub const COMPLETE: &str = "\
Reads a schedule's text on standard input. Prints its canonical text, and behind it the instructions that bring its run to quiet:
the takes of the clients' messages, by number, and where none is on its way, what is next for the first client that has to receive.
Example:  printf 'clients 2\\nedit 0 [\"a\"]\\n' | otbench complete | otbench check
Status 0: it was printed. 1: an instruction is refused, the whole would pass 100000 instructions, the input was refused, or a fault of
reading, writing or memory. The order: docs/FORMATS.md, 'Complete'.";

/// Of `generate`.
pub const GENERATE: &str = "\
Reads nothing. Prints the canonical text of a session made at random: M instructions, each performed, and unless --open reads
of everybody behind them, where all is quiet. The same words give the same text, on every machine.
With --every it prints every session of C clients with at most E edits, over a start text of at most 8 characters: one for each order
of the instructions at each machine, the smallest first. Each ends quiet with reads of everybody, and a line '%%' stands behind it.
Example:  otbench generate --seed 7 --clients 3 --instructions 40 | otbench check
          otbench generate --every --edits 1 --start xy --count
Status 0: it was printed. 1: a fault of writing or memory. 2: words that are not understood, or a number out of its range.
What sessions have: docs/FORMATS.md, 'Generated sessions' and 'Every small session'.";
