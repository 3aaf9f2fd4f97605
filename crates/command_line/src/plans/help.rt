//! The texts of `--help`.

/// The help of a command: in a line, at length, and after its arguments.
#[derive(Clone, Copy)]
pub struct Help {
    pub summary: &'static str,
    pub about: &'static str,
    pub notes: &'static str,
}

/// The notes of a command over one file that takes no form: its own, which end within the list of its statuses, and the end that these commands share.
macro_rules! notes_over_one_file {
    ($own:literal) => {
        concat!(
            $own,
            "  3  the file can't be opened or read, or the output can't be written
  4  there isn't enough memory, or more than 2^31 squares are needed
  5  the command line isn't understood

See `golly_canon --help` for the lines on standard error."
        )
    };
}

pub const PROGRAM: Help = Help {
    summary: "Gives each cellular-automaton pattern one canonical text, and compares, shows, converts and steps pattern files",
    about: "Gives each pattern of a cellular automaton one canonical text, and compares, shows,
converts and steps pattern files.

A pattern is a rule, a generation and a state for every cell of the plane. A file
is extended RLE (.rle) or a macrocell file (.mc), as Golly reads and writes them:
one whose line 1 begins with [M2] is read as macrocell, every other one as RLE.
Two files have the same canonical text exactly if they are the same pattern, in whichever
format and however they are written.",
    notes: "Examples:
  golly_canon canon glider.rle
  golly_canon same glider.rle glider.mc
  golly_canon show glider.mc
  golly_canon show glider.rle --period 1000
  golly_canon convert glider.mc --to rle > glider.rle
  golly_canon step glider.rle
  golly_canon step glider.rle --generations 1000000
  golly_canon keys -r patterns > keys
  golly_canon duplicates -r patterns
  golly_canon duplicates -r patterns --form phases
  golly_canon COMMAND --help

Exit status:
  0  done; `same` found no difference; `duplicates` found a group
  1  `same` found a difference; `duplicates` found no group
  2  a file or a rule table was refused, or the pattern can't be written as RLE
     or has no next generation
  3  a file can't be opened or read, or the output can't be written
  4  there isn't enough memory, or more than 2^31 squares are needed, or more than
     2^21 in a form
  5  the command line isn't understood

With the statuses 2 to 4 one line on standard error says why. It is `line N: KIND` for
line N of the file (counted from 1), `table line N: KIND` for line N of a rule table, or
`KIND` alone. If a file is refused, nothing is written to standard output. With
--explain a sentence follows that line: it says what is wrong and what to do. On a
terminal you get the sentence without --explain too. `keys` and `duplicates` write one
line for a file that has no key: its name, the kind and a sentence. With status 5 a text
on standard error says what is wrong; if - is named twice, it is the line `TwoInputs`.

  NoHeader         the file begins with no header, neither [M2] nor `x = ..`
  BadRule          the rule is empty, too long or has a byte that no rule has
  BoundedGrid      the rule has a `:`, for a bounded grid
  UnsupportedRule  the rule is of a kind that isn't supported
  BirthOnZero      the rule lets a cell be born that has no live neighbour
  BadNumber        a position or the generation isn't a number
  TooLarge         the generation is 2^64 or more, or a count is above 2^62
  LateHeader       a line #CXRLE after the header, or #R or #G after a square
  StateRange       a state is too large for the rule
  LineTooLong      a line has more than 2^20 bytes
 of RLE alone:
  BadHeader        the header isn't `x = .., y = .., rule = ..`
  SecondHeader     a second header follows
  BadItem          something that isn't a count, a state, `$` or `!`
  ZeroCount        a count is 0
  OutOfPlane       a cell is outside -2^61 to 2^61 - 1
 of macrocell files alone:
  Timeline         the file holds several patterns, with lines #FRAME
  BadNode          a line is neither a leaf nor five numbers
  BadLeaf          a leaf has another byte than . * $, or more than 8 x 8 cells
  BadLevel         a square's level isn't from 1 to 62
  BadChild         a child number doesn't refer to an earlier square one level down
 of rule tables alone:
  NoRuleLine              the file begins with no line `@RULE NAME`
  NoTable                 there is no line @TABLE
  BadDescriptor           a line n_states, neighborhood or symmetries is missing, out
                          of its place or wrong
  UnsupportedNeighborhood the neighbourhood isn't vonNeumann or Moore
  UnsupportedSymmetry     the neighbourhood has no such symmetries
  BadVariable             a line `var` isn't of its form
  BadTransition           a transition isn't of its form
  UnboundOutput           the new state is a variable that isn't an input of its line
  NotQuiet                the table makes live cells where all cells are 0
  Ambiguous               the line that fits a cell of the pattern gives it two states
 without a line:
  NeedsTable       the rule is a name: `step` needs its rule table, and `--period`
                   takes a B/S rule only
  RuleMismatch     the rule isn't the rule table's name
  StateBeyondTable a cell has a state that the rule table lacks
  GenerationTooLarge
                   a `step` to a generation above 2^64 - 1
  OutOfPlane       in a `step`, or on the way to a period, a cell outside the plane
                   wouldn't stay 0
  TooManyCells     more than 2^20 cells aren't 0: too many for `convert --to rle`
                   and for `step`, but not for `step --generations N`
  InputTooLong     a file has more than 2^30 bytes
  ReadFault        a file can't be opened or read
  WriteFault       the output can't be written
  Full             a command needs more than 2^31 different squares (reading a file
                   does so only if it has more than 153 MB), or a pattern that
                   --form has moved or turned has more than 2^21
  Memory           there isn't enough memory",
};

pub const CANON: Help = Help {
    summary: "Writes the one canonical text of a pattern file",
    about: "Writes the one canonical text of a pattern file.

It is a macrocell file: the line `[M2] (canonical 1)`, the rule in its canonical
form, the generation if it isn't 0, and one line for each different square that isn't
blank, after the lines of its quarters. The last line is the smallest square about the
middle of the plane that holds the whole pattern. Every cell keeps its state.

Golly opens the text as a blank pattern if its only square is a leaf of 8 x 8 cells, as
for a small pattern about (0, 0). Give Golly what `golly_canon convert FILE --to rle`
writes.

--form says in which form the pattern is written:

placed  as it lies (the default)
moved   with the north-west corner of its bounding box at (0, 0); if the box doesn't
        fit there, it ends at the edge of the plane instead
turned  turned or reflected, and then moved, in the one of the eight ways whose text
        is the least, byte by byte
phases  as the one of its phases whose turned text is the least, in generation 0

Two patterns have the same moved text exactly if a shift takes one to the other. They
have the same turned text exactly if a turn or a reflection, followed by a shift, takes
one to the other. The rule and the generation stay as they are, even if the rule
distinguishes directions. The form is refused (Full) if the moved pattern has more than
2^21 different squares; for `turned`, if any of the eight moved patterns has so many.

With `phases` an oscillator or a spaceship has one text, whichever phase, orientation and
place it is in. The text has no generation. The phases are the generations of one period,
under the pattern's B/S rule. The period is sought up to MOST, the number that you give
after --within, or 128. A pattern with no period up to MOST has the text of its turned
form, in generation 0, and so has a pattern whose rule is a name, because no rule table
is used here. A pattern that grows out of the plane from its middle before it is the same
again is refused (OutOfPlane). So is one of which a phase has no turned form (Full).",
    notes: "Examples:
  golly_canon canon glider.rle
  golly_canon canon - < glider.mc
  golly_canon canon glider.rle | sha256sum
  golly_canon canon glider.rle --form turned | sha256sum
  golly_canon canon glider.rle --form phases --within 1000
  golly_canon canon glider.rle --explain
  golly_canon canon -- -odd-name.mc

Exit status:
  0  the text was written
  2  the file was refused, or its pattern leaves the plane (--form phases)
  3  the file can't be opened or read, or the output can't be written
  4  there isn't enough memory, or more than 2^31 squares are needed, or more than
     2^21 in a form
  5  the command line isn't understood

See `golly_canon --help` for the lines on standard error.",
};

pub const CONVERT: Help = Help {
    summary: "Writes a pattern file in another format",
    about: "Writes a pattern file in another format: the same pattern, with every cell's state.

rle  extended RLE: the pattern's position, its rule, its generation if it isn't 0,
     and its cells, row by row. A pattern with more than 2^20 cells that aren't 0
     is refused (TooManyCells).
mc   macrocell: the canonical text, as `golly_canon canon` writes it. Golly opens it
     as a blank pattern if its only square is a leaf.",
    notes: notes_over_one_file!(
        "Examples:
  golly_canon convert glider.mc --to rle > glider.rle
  golly_canon convert - --to rle < glider.mc
  golly_canon convert glider.rle --to mc
  golly_canon convert glider.mc --to rle --explain

Exit status:
  0  the text was written
  2  the file was refused, or has too many cells for RLE
"
    ),
};

pub const SAME: Help = Help {
    summary: "Says whether two files are the same pattern",
    about: "Says whether two files are the same pattern: the same rule, the same generation, and
the same state of every cell of the plane. It writes the line `same` or the line
`different`.

The files may be of different formats. The position of each cell counts: a pattern that
is moved or turned is another one. So is one whose rule has another name (`Life` in place
of `B3/S23`), but the same digits written in two ways (`23/3` and `b3s23`) are one rule.

--form says in which form the patterns are compared: `placed` (the default); `moved`,
in which a pattern is the same as each of its shifts; `turned`, in which it is the same
as its turns, its reflections and their shifts too; or `phases`, in which an oscillator
or a spaceship is the same as its phases, their turns, their reflections and the shifts
of all these too, and in which no generation counts.

For `phases` the period of a pattern under its B/S rule is sought up to MOST, the number
that you give after --within, or 128. A pattern with no period up to MOST, or whose rule
is a name, is taken in its turned form. A pattern that grows out of the plane before it
is the same again is refused (OutOfPlane).",
    notes: "Examples:
  golly_canon same glider.rle glider.mc
  golly_canon same - glider.mc < glider.rle
  golly_canon same a.rle b.rle > /dev/null && echo 'nothing has changed'
  golly_canon same a.rle b.rle --form turned
  golly_canon same a.rle b.rle --form phases
  golly_canon same a.rle b.rle --explain

Exit status:
  0  the files are the same pattern
  1  they are different patterns
  2  a file was refused, or its pattern leaves the plane (--form phases)
  3  a file can't be opened or read, or the output can't be written
  4  there isn't enough memory, or more than 2^31 squares are needed, or more than
     2^21 in a form
  5  the command line isn't understood, or both files are -

The line on standard error doesn't say which file it is about. With --explain the
sentence after it names the file, if that is known. If several things are wrong, the first
of this list is reported: A can't be read or is too long; B can't be read or is too
long; A's first fault; B's first fault; a form with more than 2^21 squares (Full). The
last of these is found only if --form is `moved` or `phases`, or if it is `turned` and
both files have the same generation. For `phases` a pattern that leaves the plane
(OutOfPlane) is found with these forms, in A before B.
See `golly_canon --help` for the lines on standard error.",
};

pub const SHOW: Help = Help {
    summary: "Writes what a pattern file holds, in five lines, and its period if asked",
    about: "Writes what a pattern file holds, in five lines:

rule R                      the rule in its canonical form
generation G                the generation
population P                how many cells aren't 0
box LEFT TOP WIDTH HEIGHT   the bounding box of these cells, or `box none`; y grows
                            downwards
nodes N                     how many squares the canonical text has, a line each

With --period MOST it goes on with the pattern, under its B/S rule, until it is the same
again, for MOST generations at most. A sixth line says after how many generations it
was, for the first time, and what such a pattern is called:

period 1 still life         nothing changes
period N oscillator         it is the same again, in its place
period N spaceship X Y      it is the same again, X columns further east and Y rows
                            further south; -X is to the west, and -Y to the north
period none up to MOST      it isn't the same again up to then: it is none of these, or
                            its period is greater

A glider has the line `period 4 spaceship 1 1`. The period is that of all cells together.
It takes time for each generation up to it; you can stop it at any time (Ctrl-C), and
nothing is written then. A pattern whose rule is a name is refused (NeedsTable), and so
is one that grows out of the plane from its middle before it is the same again
(OutOfPlane).",
    notes: notes_over_one_file!(
        "Examples:
  golly_canon show glider.rle
  golly_canon show - < glider.mc
  golly_canon show glider.rle | grep population
  golly_canon show glider.rle --period 1000
  golly_canon show glider.rle --explain

Exit status:
  0  the lines were written
  2  the file was refused, or its period can't be sought
"
    ),
};

pub const STEP: Help = Help {
    summary: "Writes the next generation of a pattern file, or a later one",
    about: "Writes the canonical text of the next generation of a pattern file, or with
--generations of a later one.

A pattern under a B/S rule needs no table: B3/S23 counts the eight neighbours of a
cell, and B1/S0V, with a V after it, the four at its sides. A pattern whose rule is a
name needs the rule table of that name, the section @TABLE of a .rule file. The first
line of the table that fits a cell and its neighbours gives the cell's next state. A
cell that no line fits keeps its state. The table is read before the pattern. A pattern
with more than 2^20 cells that aren't 0 is refused (TooManyCells).

--generations N goes N generations further in place of one. With 0 it writes what
`golly_canon canon` writes, and with 1 what `golly_canon step` writes. Under a B/S rule it
makes many generations at a time (HashLife), and takes any number of cells: with
`--generations 1` you can step a pattern that has too many cells for `step` alone. It is
refused (OutOfPlane) if a cell outside the plane isn't 0 in one of these generations. How
long it takes, and how many squares it needs, depends on the pattern; you can stop it at
any time (Ctrl-C), and nothing is written then.

With --table, N generations are N steps, one after the other, each as without
--generations. The first one that is refused ends the command. With --explain it says
after how many generations this was.",
    notes: "Examples:
  golly_canon step glider.rle
  golly_canon step - < glider.mc
  golly_canon step glider.rle --generations 1000000
  golly_canon step wires.rle --table WireWorld.rule
  golly_canon step wires.rle --table WireWorld.rule --generations 100
  golly_canon step wires.rle --table WireWorld.rule --explain

Exit status:
  0  the text was written
  2  the file or the rule table was refused, or the pattern has no such generation
  3  a file can't be opened or read, or the output can't be written
  4  there isn't enough memory, or more than 2^31 squares are needed
  5  the command line isn't understood, or both files are -

See `golly_canon --help` for the lines on standard error.",
};

pub const KEYS: Help = Help {
    summary: "Writes a key of each pattern file, one line a file",
    about: "Writes a key of each pattern file, one line a file, as `sha256sum` does: the key, two
spaces and the name of the file.

The key is the SHA-256, in 64 hex digits, of the text that `golly_canon canon FILE`
writes. So two files have the same key if they are the same pattern, in whichever format
and however they are written. --form says which patterns get the same key:

placed  a pattern as it lies (the default)
moved   a pattern and its shifts
turned  a pattern, its turns and its reflections, and the shifts of all these
phases  an oscillator or a spaceship in all its phases, the turns and the reflections
        of these, and the shifts of all these, in whatever generation

For `phases` the period of a pattern under its B/S rule is sought up to MOST, the number
that you give after --within, or 128. A pattern with no period up to MOST, or whose rule
is a name, has the key of its turned form in generation 0. A pattern that grows out of
the plane before it is the same again is refused (OutOfPlane).

In the other forms the generation that a file gives counts too: the text has it in its
line #G. With --ignore-generation the key is that of the text without this line, as if
the generation were 0.

A file that is refused or can't be opened is reported on standard error, by its name, and
passed over. In a name, a backslash, a line feed and a carriage return are written as
\\\\, \\n and \\r, and the line then begins with a backslash.

If standard error is a terminal and the work takes more than a second, a line there says
how many files are done. It is cleared before any other line, and at the end.

With -r, a FILE that is a folder represents the files in it and in the folders below it,
in the order of their names. Links in a folder are passed over. A FILE that is a link
is followed.

LIST has one name a line, as `find` writes them. With --zero each name ends in NUL, as
`find -print0` writes them, and so do the lines of the output. The list is read before
any file is opened. In the list, - is the name of a file, and not standard input.

With --stream STREAM the patterns of one file, or of standard input, are consumed one after
the other. Each ends in a NUL byte; what follows the last NUL is a pattern too, unless it
is empty. A pattern has its number for a name, from 1 on, and all that is written of it is
what would be written of a file of that name with these bytes. Its line is written as soon
as the pattern has ended, and it may have 2^30 bytes. If the stream can't be read to its
end, the pattern that the reading stopped in is reported as refused.

With --json each file gets an object of JSON, one a line, even if it has no key:

  {\"name\":\"glider.rle\",\"key\":\"7b1c..\"}
  {\"name\":\"bad.rle\",\"kind\":\"ZeroCount\",\"line\":3,\"reason\":\"A count is 0.\"}
  {\"name\":\"gone.rle\",\"kind\":\"ReadFault\",\"reason\":\"no such file\"}

Nothing is then written to standard error about a file without a key. In a name, U+FFFD
replaces the bytes that aren't UTF-8 text. Each object ends in a line feed, even with
--zero.",
    notes: "Examples:
  golly_canon keys *.rle *.mc
  golly_canon keys -r patterns > keys
  golly_canon keys --form turned *.rle
  golly_canon keys --form turned --ignore-generation *.rle
  golly_canon keys --form phases --within 1000 *.rle
  golly_canon keys --json -r patterns > keys.jsonl
  find . -name '*.rle' -print0 | golly_canon keys --zero --from - > keys
  printf 'x = 1, y = 1\\no!\\0x = 2, y = 1\\n2o!\\0' | golly_canon keys --stream -

`golly_canon duplicates` lists the files that have one key, in groups.

Exit status:
  0  each file has its key
  2  a file was refused
  3  a file can't be opened or read, or the output can't be written
  4  there isn't enough memory, or more than 2^31 squares are needed, or more than
     2^21 in a form, for a file
  5  the command line isn't understood, no file is named, - is named twice, or files are
     named besides a stream

If several of these apply, the status is the greatest of them; but if the output can't
be written, the status is 3. A file that is refused is reported as
`NAME: line N: KIND: ..`, or as `NAME: KIND: ..` if the fault is on no line;
`golly_canon --help` lists the kinds. A list that can't be read is reported as
`ReadFault`.",
};

pub const DUPLICATES: Help = Help {
    summary: "Writes the groups of files that are the same pattern",
    about: "Writes the groups of files that are the same pattern, as `fdupes` does for files with the
same bytes:

  $ golly_canon duplicates -r patterns
  patterns/block.mc
  patterns/still/block.rle

  patterns/glider.rle
  patterns/old/glider.mc

A group has at least two files: all files for which `golly_canon keys`, in the same form,
writes the same key. Their names are written one a line, in the order in which you give
the files. An empty line separates two groups, and the groups are in the order of their
first files. A file isn't written if no other file has its key.

--form says which patterns are in one group:

placed  a pattern as it lies
moved   a pattern and its shifts (the default)
turned  a pattern, its turns and its reflections, and the shifts of all these
phases  an oscillator or a spaceship in all its phases, the turns and the reflections
        of these, and the shifts of all these, in whatever generation

The default is `moved`, because Golly writes the .rle file and the .mc file of one pattern
at different places. With --ignore-generation, files that differ only in the generation
are in one group too, as they are with `phases`.

For `phases` the period of a pattern under its B/S rule is sought up to MOST, the number
that you give after --within, or 128. A pattern with no period up to MOST, or whose rule
is a name, is taken in its turned form. A pattern that grows out of the plane before it
is the same again is refused (OutOfPlane).

A file that is refused or can't be opened is in no group. It is reported on standard error
as by `golly_canon keys`, and passed over. Nothing is written to standard output before
each file has been read.

In a name, a backslash, a line feed and a carriage return are written as \\\\, \\n and \\r.
With --zero the names are written as they are and end in NUL, and one more NUL separates
two groups.

With -r, a FILE that is a folder represents the files in it and in the folders below it,
in the order of their names. Links in a folder are passed over. A FILE that is a link
is followed.

LIST has one name a line, as `find` writes them; with --zero each name ends in NUL, as
`find -print0` writes them. The list is read before any file is opened. In the list, - is
the name of a file, and not standard input.",
    notes: "Examples:
  golly_canon duplicates *.rle *.mc
  golly_canon duplicates -r patterns
  golly_canon duplicates -r patterns --form turned
  golly_canon duplicates -r patterns --form phases
  golly_canon duplicates -r patterns --ignore-generation
  golly_canon duplicates -r mine theirs > /dev/null || echo 'no two are the same, or an error'
  find . -name '*.rle' -print0 | golly_canon duplicates --zero --from - > groups

Exit status:
  0  there is a group
  1  there is none
  2  a file was refused
  3  a file can't be opened or read, or the output can't be written
  4  there isn't enough memory, or more than 2^31 squares are needed, or more than
     2^21 in a form, for a file
  5  the command line isn't understood, no file is named, or - is named twice

If several of these apply, the status is the greatest of them, so 0 and 1 mean that each
file has its key. But if the output can't be written, the status is 3.
`golly_canon keys --help` says how a file without a key is reported.",
};
