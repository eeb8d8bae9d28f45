//! The texts of the program's help.
use crate::names::{COMMANDS, FILE, FOLDER, NEW, OLD, SCRIPT, STORE};

pub const ABOUT: &str =
    "Exact shortest-path lengths in a road network. A store keeps the network in a file that survives a power cut.

Without a subcommand it reads a .gr text, a line `run` and a script from standard input, and runs the script on a store in memory.

The exit status is 0 if everything was done, 1 after a fault, 2 if the arguments are not understood, and 3 if a server accepted nearly all commands of one run.";

pub const ABOUT_ONCE: &str =
    "Prints the length of a shortest walk from S to T in the network of the file GR: the line `v 0`, then `d S T LENGTH`, or `x S T` if no walk leads there, or `no 24` if S or T is not a node.";

pub const ABOUT_ROUTE: &str =
    "Prints the arcs of a shortest walk from S to T in the network of the file GR: the lines `v 0` and `route S T LENGTH C`, then C lines `a K T H W open`, the arcs in the order of the walk. The walk visits no node twice. It prints `v 0` and `x S T` if no walk leads there, or `v 0` and `no 24` if S or T is not a node.";

pub const ABOUT_BATCH: &str =
    "Answers the pairs of the file P2P in the network of the file GR. It prints the line `v 0`, then one line for each pair, in their order: `d S T LENGTH`, or `x S T` if no walk leads there.

With --from and --to, and without P2P, the pairs are a table: each source with each target, source by source, in the order of these two files.";

pub const ABOUT_REACH: &str =
    "Prints the nodes to which walks from S lead in the network of the file GR: the line `v 0`, then one line for each node T, in ascending order: `d S T LENGTH`, with the length of a shortest walk from S to T. S itself is one of these nodes. With --within it prints only the lines whose LENGTH is at most L. If S is not a node, it prints `v 0` and `no 24`.";

pub const ABOUT_REACHED: &str =
    "Prints the nodes from which walks lead to T in the network of the file GR: the line `v 0`, then one line for each node S, in ascending order: `d S T LENGTH`, with the length of a shortest walk from S to T. T itself is one of these nodes. With --within it prints only the lines whose LENGTH is at most L. If T is not a node, it prints `v 0` and `no 24`.";

pub const ABOUT_REHEARSE: &str =
    "Makes a store in memory for the network of the file GR, runs the script of the file SCRIPT on it, and prints the answers to its lines. No file is written.

A script has commands, groups of commands between `begin` and `end`, flushes, checkpoints, views (`task`, `publish`), queries (`dist S T`, `from X T`, `lower S T`) and stops, which are power cuts.";

pub const ABOUT_CREATE: &str =
    "Makes a store in the file STORE, which is absent or empty. The store has the network of the file GR and the landmarks of the file SS, at version 0. It prints `ok 0` once the store is durable.";

pub const ABOUT_APPLY: &str =
    "Carries out the commands of the file COMMANDS on the store in the file STORE. For each command or group, in their order, it prints `ok N` once it is durable as version N, or `no CODE` if it is refused.

The lines `begin` and `end` enclose a group of 1 to 253 commands: all are carried out, or none.";

pub const ABOUT_ASK: &str =
    "Answers the pairs of the file P2P in the network of the store in the file STORE. It prints the line `v V`, with the version V of the store, then one line for each pair, in their order: `d S T LENGTH`, or `x S T` if no walk leads there. The store stays as it is.

With --from and --to, and without P2P, the pairs are a table: each source with each target, source by source, in the order of these two files.

With --routes it prints for each pair of P2P the arcs of a shortest walk, as the subcommand `route` does.";

pub const ABOUT_CHECK: &str =
    "Checks the whole file STORE, as every opening of a store does, and prints three lines. The store stays as it is.

  v V          its version
  slot A E     the slot of its last checkpoint, A or B, and that slot's epoch,
               which rises by one with each checkpoint
  journal U    the number of journal pages after that checkpoint

If a page that counts is damaged, a fault line names its number, and the status is 1.";

pub const ABOUT_SERVE: &str =
    "Serves the store in the file STORE on standard input and output. It reads a line, carries it out, prints its answer, and only then reads the next line. The line `quit` or the end of the input ends the server.

It also serves one client after another at each pair of named pipes, IN and OUT, all pairs at once. The client writes its lines into IN and reads its answers from OUT. There `quit` ends only that client's session, and a last line without its line feed is not carried out. Clients at the pairs after --asking may only ask.

One run accepts 16777216 commands. Once fewer than 253 are left, the server ends with status 3: start it again.

Commands are answered by `ok N` once they are durable as version N, or by `no CODE`:
  set K W      arc K gets length W
  close K      no walk uses arc K
  reopen K     walks use arc K again
  mark X       node X becomes a landmark
  unmark X     node X is no longer a landmark
  lay T H W    a new arc leads from node T to node H, of length W
  begin, end   enclose 1 to 253 commands: all or none, one answer at the end

Queries are answered by `v V`, the version that is shown, and by the lines of the
answer, or by `no CODE`:
  dist S T     the length of a shortest walk from S to T
  from X T     the same from a landmark X, without a search
  lower S T    a lower bound for all walks from S to T
  arc K        arc K
  arcs T H     the numbers of all arcs from T to H
  landmarks    all landmarks
  closed       all closed arcs
  reach S L    the nodes at most L away from S
  reached T L  the nodes from which T is at most L away
  nearest S K  the K landmarks nearest to S
  table A B S .. T ..
               the lengths from each of A sources to each of B targets
  route S T    the arcs of a shortest walk from S to T, in its order

What-if queries, for this client only:
  suppose, end enclose commands, answered by `suppose V`. From then on dist, from,
               table, route, reach, reached and nearest are answered, after `s V`,
               as if these commands had been carried out on version V
  forget       ends these queries: `forgotten`

Other lines:
  wait         waits until this session's last accepted command is shown: `v V`
  until N      waits until version N or a later one is shown: `v V`, or `no 54`
  state        how the server is doing, in one line
  copy NAME    with --copies, makes a store in the file NAME of that folder, with
               the network that is shown: `copied V` once it is durable, or
               `no CODE`. NAME is 1 to 64 letters, digits, `-` and `_`
  quit         ends the session

Empty lines and lines that begin with # have no answer. Any other line is answered by `no 1` or `no 5`.";

pub const AFTER_SERVE: &str =
    "Lines of a session: set, close, reopen, mark, unmark, lay, begin, end, dist, from, lower, arc, arcs, landmarks, closed, table, route, reach, reached, nearest, suppose, forget, wait, until, state, copy, quit. `man roadmark` and docs/MANUAL.md say what each takes and how it is answered.

Example: printf 'close 7\\nwait\\ndist 1 6\\n' | roadmark serve six.store";

pub const ABOUT_MIGRATE: &str =
    "Makes a store in the file NEW, which is absent or empty, from the store in the file OLD, which an earlier program made. The new store has the same network at the same version V. It prints `ok V` once the new store is durable. OLD stays as it is.";

pub const ABOUT_UPGRADE: &str =
    "Makes a store in the file NEW, which is absent or empty, from the store in the file STORE, for a new map: the network of the file GR. The file OLD is the text that STORE was made from. STORE stays as it is.

Arcs are matched by their ends and by their place among parallel arcs, if STORE and GR have equally many of these. A matched arc is closed if it is closed in STORE. If its length in STORE is still that of OLD, it gets the length of GR; if it was changed, or the arc was laid, it keeps the length of STORE. All other arcs are as in GR. Landmarks are those of STORE that are nodes of GR. The new store is at version 0. It prints these lines:

  kept K       arcs of GR that were matched
  added A      arcs of GR with ends between which STORE has no arc
  gone G       arcs of STORE with ends between which GR has no arc
  doubtful D   arcs of GR with ends between which both have arcs, but not
               equally many
  landmarks gone L
               landmarks of STORE that are not nodes of GR
  ok 0         the new store is durable";

pub const ABOUT_COPY: &str =
    "Makes a store in the file FILE, which is absent or empty, from the store in the file STORE. The copy has the same network at the same version V, and by default the same room and as many journal pages. It prints `ok V` once the copy is durable. STORE stays as it is. This is how a store gets more room, or another journal.";

pub const ABOUT_SHOW: &str =
    "Prints an arc, or all arcs from one node to another, in the network of the store in the file STORE. The first line is `v V`, with the version V of the store. The store stays as it is.

For one number K it prints arc K, `a K T H W open` or `a K T H W closed`: it leads from node T to node H and is of length W. If there is no such arc, it prints `no 20`.

For two numbers T and H it prints `arcs T H K1 K2 ..`: the numbers of all arcs from node T to node H, in ascending order, closed ones too. If T or H is not a node, it prints `no 24`.";

pub const ABOUT_EXPORT: &str =
    "Writes the network of the store in the file STORE into three new files of the folder FOLDER, which exists. The store stays as it is.

  network.gr       all arcs, in the order of their numbers
  landmarks.ss     the landmarks
  closed.commands  commands that close the closed arcs

The first line of each has the version, the room and the number of journal pages. It prints `ok V`, with the version V of the store, once all three are durable. If one of these files exists already, nothing is written.

`create` with the first two and the store's room, and then `apply` with the third, make a store of the same network.";

pub const GR_HELP: &str = "File of the network, a .gr text, or - for standard input";

pub const P2P_HELP: &str = "File of the pairs, a .p2p text, or - for standard input";

pub const STORE_HELP: &str = "File of the store";

pub const UNUSED_DELTA: &str =
    "Bucket width of the search, 1 to 2147483647. It is ignored: apply does not search";

pub const COPIED_ROOM: &str =
    "Number of arcs that the copy can hold, at most 67108864; by default the room of the store";

pub const COPIED_JOURNAL: &str =
    "Pages of the copy's journal, 1 to 65536; by default as many as the store has";

pub const DELTA_HELP: &str =
    "Bucket width of the search, 1 to 2147483647. Every width gives the same answers. If a few arcs are far longer than the rest, give about a thousandth of the longest of the other arcs";

pub const JOURNAL_HELP: &str = "Pages of the store's journal, 1 to 65536; 64 by default";

pub const ROOM_HELP: &str =
    "Number of arcs that the store can hold, with those that `lay` adds: at most 67108864; by default as many as the network has";

pub const NEW_HELP: &str = "File of the new store, absent or empty";

pub const SOURCES_HELP: &str =
    "File of the sources of a table, a .ss text, or - for standard input; with --to and without P2P";

pub const TARGETS_HELP: &str =
    "File of the targets of a table, a .ss text, or - for standard input; with --from and without P2P";

pub const COPIES_HELP: &str =
    "Existing folder in which the line `copy NAME` of a client makes a copy of the store. Without it no copies are made";

pub const ASKING_HELP: &str =
    "More pairs of named pipes, whose clients may only ask: a command or group there is refused with 64, and no copies are made";

pub const WORKERS_HELP: &str =
    "Threads that compute the landmarks' rows of a new version, 1 to 64; 4 by default";

pub const PATIENCE_HELP: &str =
    "Seconds for which a line `until N` waits for its version, 1 to 86400; 30 by default";

pub const NUMBER_HELP: &str = "Number of the arc; or, if H is given, node where the arcs begin";

pub const HEAD_HELP: &str = "Node where the arcs end";

pub const PIPES_HELP: &str =
    "Named pipes, two for each client at a time, at most 60 pairs in all. A client writes its lines into IN and reads its answers from OUT";

pub const ROUTES_HELP: &str =
    "Prints the arcs of a shortest walk for each pair of the file P2P, instead of its length";

pub const VERBOSE_HELP: &str =
    "Reports progress on standard error, at most one line a second, and why a file cannot be opened";

pub const WITHIN_HELP: &str = "Greatest LENGTH that is printed; by default there is no limit";
