// The numbers of the layout as the code names them, and what every crate does with a word: it is a place, a wider number, a part of a longer one; it
// is in a range.
// Knows: crate definitions' Places, whose names these are, in capitals.
// `numbers`, `word_numbers` and `long_numbers` hold each of them to the definitions' one.
// `parameters` has the four numbers of a problem, `refusals` the refusals by name.
#![tactic(auto)]

ghost use Rattle.std.specs.Prelude.{◌≡◌, ◌∷◌, [], ◌+◌, ◌≤◌, ◌<◌, length};
ghost use Rattle.definitions.specs.Layout.{long_at};
ghost use Rattle.definitions.specs.Lists.{between as between_definition};
ghost use Rattle.definitions.specs.Places.{
  exponents_length,
  most_exponent,
  most_degree,
  most_weight,
  most_variables,
  most_components,
  most_elements,
  most_vectors,
  most_rows,
  most_terms,
  most_tree_terms,
  most_levels,
  all_levels,
  packed_length,
  row_length,
  image_length,
  component_offset,
  exponents_offset,
  rank_offset,
  header_length,
  counts_length,
  ends_start,
  rows_start,
  level_length,
  degrees_start,
  carried_start,
  state_length,
  value_length,
  tree_length,
  vector_length,
  heads_length,
  images_length,
  spans_length,
  tables_spans,
  tables_ends,
  tables_below,
  tables_above,
  tables_length,
  ends_length,
  lifted_length,
  grown_length,
  file_length,
  read_length,
  s_line_length,
  w_line_length,
  pair_line_length,
  s_lines_length,
  level_lines_length,
  all_lines_length,
  sheet_length,
  cell_length,
  page_columns,
  row_shift,
  page_line_length,
  page_rows,
  page_length,
  weights_length,
  second_base,
  b_line_length,
  bidegrees_length,
  hilbert_degrees,
  triangle_rows,
  triangle_length,
  h_line_length,
  hilbert_length,
  matrix_length,
  marks_length,
  least_terms,
  most_nodes,
  few_nodes,
  node_edges,
  nodes_length,
  few_nodes_length,
  edges_length,
  few_edges_length,
  roots_start,
  table_spans_length,
  slots_length,
  keys_length,
  few_keys_length,
  v_line_length,
  brought_length,
  m_line_length,
  member_length,
  t_line_length,
  end_line_length,
  completed_length,
  most_picks,
  l_line_length,
  p_line_length,
  log_length,
  replay_length,
};
ghost use Rattle.words.specs.Slices.{SixteenBits};

pub mod parameters;
pub mod refusals;

// ## Limits

pub const EXPONENTS_LENGTH: usize = 8;

pub const MOST_EXPONENT: u16 = 255;

pub const MOST_DEGREE: u16 = 255;

pub const MOST_WEIGHT: u16 = 15;

pub const MOST_VARIABLES: u16 = 8;

pub const MOST_COMPONENTS: u16 = 16;

pub const MOST_ELEMENTS: u16 = 64;

pub const MOST_VECTORS: usize = 128;

pub const MOST_VECTORS_U16: u16 = 128;

pub const MOST_ROWS: usize = 2048;

pub const MOST_TERMS: usize = 512;

pub const LEAST_TERMS: usize = 32;

pub const MOST_TREE_TERMS: usize = 4096;

pub const MOST_LEVELS: usize = 9;

pub const ALL_LEVELS: usize = MOST_LEVELS + 1;

// ## Rows

pub const COMPONENT_OFFSET: usize = 1;

pub const EXPONENTS_OFFSET: usize = COMPONENT_OFFSET + 1;

pub const RANK_OFFSET: usize = COMPONENT_OFFSET;

pub const PACKED_LENGTH: usize = 4;

pub const ROW_LENGTH: usize = EXPONENTS_OFFSET + PACKED_LENGTH;

pub const IMAGE_LENGTH: usize = EXPONENTS_OFFSET + EXPONENTS_LENGTH;

// ## The state

pub const HEADER_LENGTH: usize = 5;

pub const COUNTS_LENGTH: usize = MOST_VECTORS + 1;

pub const ENDS_START: usize = HEADER_LENGTH + 1;

pub const ROWS_START: usize = HEADER_LENGTH + ALL_LEVELS * COUNTS_LENGTH;

pub const LEVEL_LENGTH: usize = MOST_ROWS * ROW_LENGTH;

pub const DEGREES_START: usize = ROWS_START + ALL_LEVELS * LEVEL_LENGTH;

pub const DEGREES_LENGTH: usize = 16;

pub const CARRIED_START: usize = DEGREES_START + DEGREES_LENGTH;

pub const STATE_LENGTH: usize = CARRIED_START + ALL_LEVELS * MOST_VECTORS;

// ## Other buffers

pub const VALUE_LENGTH: usize = MOST_TERMS * ROW_LENGTH;

pub const TREE_LENGTH: usize = MOST_TREE_TERMS * ROW_LENGTH;

pub const VECTOR_LENGTH: usize = MOST_TERMS * ROW_LENGTH;

pub const HEADS_LENGTH: usize = MOST_VECTORS * ROW_LENGTH;

pub const IMAGES_LENGTH: usize = MOST_VECTORS * IMAGE_LENGTH;

pub const SPANS_LENGTH: usize = COUNTS_LENGTH * 2;

pub const ENDS_LENGTH: usize = MOST_VECTORS;

pub const TABLES_SPANS: usize = HEADS_LENGTH;

pub const TABLES_ENDS: usize = TABLES_SPANS + SPANS_LENGTH;

pub const TABLES_BELOW: usize = TABLES_ENDS + ENDS_LENGTH;

pub const TABLES_ABOVE: usize = TABLES_BELOW + IMAGES_LENGTH;

pub const TABLES_LENGTH: usize = TABLES_ABOVE + IMAGES_LENGTH;

pub const LIFTED_LENGTH: usize = ENDS_LENGTH + LEVEL_LENGTH;

pub const GROWN_LENGTH: usize = LIFTED_LENGTH + VECTOR_LENGTH;

// ## Bytes

pub const FILE_LENGTH: usize = 65536;

pub const READ_LENGTH: usize = FILE_LENGTH + 1;

pub const S_LINE_LENGTH: usize = 74;

pub const W_LINE_LENGTH: usize = 62;

pub const PAIR_LINE_LENGTH: usize = 29;

pub const S_LINES_LENGTH: usize = MOST_ROWS * S_LINE_LENGTH;

pub const LEVEL_LINES_LENGTH: usize = S_LINES_LENGTH + PAIR_LINE_LENGTH;

pub const ALL_LINES_LENGTH: usize = MOST_LEVELS * LEVEL_LINES_LENGTH;

pub const SHEET_LENGTH: usize = 1400000;

// ## Pages

pub const CELL_LENGTH: usize = 6;

pub const PAGE_COLUMNS: usize = 11;

pub const ROW_SHIFT: usize = PAGE_COLUMNS - 1;

pub const PAGE_LINE_LENGTH: usize = (PAGE_COLUMNS + 1) * CELL_LENGTH + 1;

pub const PAGE_ROWS: usize = 20666;

pub const PAGE_LENGTH: usize = (PAGE_ROWS + 1) * PAGE_LINE_LENGTH;

// ## Lines of bidegrees

pub const WEIGHTS_LENGTH: usize = 2 * EXPONENTS_LENGTH;

pub const SECOND_BASE: u64 = 1048576;

pub const B_LINE_LENGTH: usize = 23;

pub const BIDEGREES_LENGTH: usize = PAGE_COLUMNS * MOST_VECTORS * B_LINE_LENGTH;

// ## The Hilbert function

pub const HILBERT_DEGREES: usize = 33;

pub const TRIANGLE_ROWS: usize = HILBERT_DEGREES + EXPONENTS_LENGTH - 1;

pub const TRIANGLE_LENGTH: usize = TRIANGLE_ROWS * (TRIANGLE_ROWS + 1) / 2;

pub const H_LINE_LENGTH: usize = 17;

pub const HILBERT_LENGTH: usize = PAIR_LINE_LENGTH + MOST_TERMS * W_LINE_LENGTH;

// ## Minimal Betti numbers

pub const MATRIX_LENGTH: usize = MOST_VECTORS * MOST_VECTORS;

pub const MARKS_LENGTH: usize = PAGE_COLUMNS * MOST_VECTORS;

// ## Table and sweeps

pub const MOST_NODES: usize = MOST_TERMS - 1;

pub const FEW_NODES: usize = 128;

pub const NODE_EDGES: usize = 32;

pub const NODES_LENGTH: usize = MOST_NODES * 2 * ROW_LENGTH;

pub const FEW_NODES_LENGTH: usize = FEW_NODES * 2 * ROW_LENGTH;

pub const EDGES_LENGTH: usize = MOST_NODES * NODE_EDGES * 2;

pub const FEW_EDGES_LENGTH: usize = FEW_NODES * NODE_EDGES * 2;

pub const ROOTS_START: usize = (MOST_NODES + 1) * 2;

pub const TABLE_SPANS_LENGTH: usize = ROOTS_START + MOST_VECTORS * 2;

pub const SLOTS_LENGTH: usize = 2048;

pub const KEYS_LENGTH: usize = MOST_NODES * 3;

pub const FEW_KEYS_LENGTH: usize = FEW_NODES * 3;

// ## Membership

pub const V_LINE_LENGTH: usize = 62;

pub const BROUGHT_LENGTH: usize = READ_LENGTH + MOST_TERMS * V_LINE_LENGTH;

pub const M_LINE_LENGTH: usize = 4;

pub const MEMBER_LENGTH: usize = 2 * MOST_TERMS * W_LINE_LENGTH + M_LINE_LENGTH;

// ## Completing

pub const T_LINE_LENGTH: usize = 68;

pub const END_LINE_LENGTH: usize = 8;

pub const COMPLETED_LENGTH: usize = FILE_LENGTH + MOST_TERMS * T_LINE_LENGTH + END_LINE_LENGTH;

// ## Picks recorded in another session

pub const MOST_PICKS: usize = 4_096;

pub const L_LINE_LENGTH: usize = 14;

pub const P_LINE_LENGTH: usize = 56;

pub const LOG_LENGTH: usize = READ_LENGTH + L_LINE_LENGTH + MOST_PICKS * P_LINE_LENGTH;

pub const REPLAY_LENGTH: usize = MOST_TERMS * S_LINE_LENGTH;

// ## Held to the definitions

pub fn numbers() -> [usize; 86]
    ensures { result ≡ exponents_length ∷ most_vectors ∷ most_rows ∷ most_terms ∷ most_tree_terms ∷ most_levels ∷ all_levels ∷ component_offset
        ∷ exponents_offset ∷ rank_offset ∷ packed_length ∷ row_length ∷ image_length ∷ header_length ∷ counts_length ∷ ends_start ∷ rows_start ∷ level_length ∷
        degrees_start ∷ most_components ∷ carried_start ∷ state_length
        ∷ value_length ∷ tree_length ∷ vector_length ∷ heads_length ∷ images_length ∷ spans_length ∷ ends_length ∷ tables_spans ∷ tables_ends ∷ tables_below
        ∷ tables_above ∷ tables_length ∷ lifted_length ∷ grown_length ∷ file_length ∷ read_length ∷ s_line_length ∷ w_line_length ∷ pair_line_length
        ∷ s_lines_length ∷ level_lines_length ∷ all_lines_length ∷ sheet_length ∷ cell_length ∷ page_columns ∷ row_shift ∷ page_line_length ∷ page_rows
        ∷ page_length ∷ weights_length ∷ b_line_length ∷ bidegrees_length ∷ hilbert_degrees ∷ triangle_rows ∷ triangle_length ∷ h_line_length
        ∷ hilbert_length ∷ matrix_length ∷ marks_length ∷ least_terms ∷ most_nodes ∷ few_nodes ∷ node_edges ∷ nodes_length ∷ few_nodes_length ∷ edges_length
        ∷ few_edges_length ∷ roots_start ∷ table_spans_length ∷ slots_length ∷ keys_length ∷ few_keys_length
        ∷ v_line_length ∷ brought_length ∷ m_line_length ∷ member_length ∷ t_line_length ∷ end_line_length ∷ completed_length ∷ most_picks
        ∷ l_line_length ∷ p_line_length ∷ log_length ∷ replay_length ∷ [] }
{
    [
        EXPONENTS_LENGTH,
        MOST_VECTORS,
        MOST_ROWS,
        MOST_TERMS,
        MOST_TREE_TERMS,
        MOST_LEVELS,
        ALL_LEVELS,
        COMPONENT_OFFSET,
        EXPONENTS_OFFSET,
        RANK_OFFSET,
        PACKED_LENGTH,
        ROW_LENGTH,
        IMAGE_LENGTH,
        HEADER_LENGTH,
        COUNTS_LENGTH,
        ENDS_START,
        ROWS_START,
        LEVEL_LENGTH,
        DEGREES_START,
        DEGREES_LENGTH,
        CARRIED_START,
        STATE_LENGTH,
        VALUE_LENGTH,
        TREE_LENGTH,
        VECTOR_LENGTH,
        HEADS_LENGTH,
        IMAGES_LENGTH,
        SPANS_LENGTH,
        ENDS_LENGTH,
        TABLES_SPANS,
        TABLES_ENDS,
        TABLES_BELOW,
        TABLES_ABOVE,
        TABLES_LENGTH,
        LIFTED_LENGTH,
        GROWN_LENGTH,
        FILE_LENGTH,
        READ_LENGTH,
        S_LINE_LENGTH,
        W_LINE_LENGTH,
        PAIR_LINE_LENGTH,
        S_LINES_LENGTH,
        LEVEL_LINES_LENGTH,
        ALL_LINES_LENGTH,
        SHEET_LENGTH,
        CELL_LENGTH,
        PAGE_COLUMNS,
        ROW_SHIFT,
        PAGE_LINE_LENGTH,
        PAGE_ROWS,
        PAGE_LENGTH,
        WEIGHTS_LENGTH,
        B_LINE_LENGTH,
        BIDEGREES_LENGTH,
        HILBERT_DEGREES,
        TRIANGLE_ROWS,
        TRIANGLE_LENGTH,
        H_LINE_LENGTH,
        HILBERT_LENGTH,
        MATRIX_LENGTH,
        MARKS_LENGTH,
        LEAST_TERMS,
        MOST_NODES,
        FEW_NODES,
        NODE_EDGES,
        NODES_LENGTH,
        FEW_NODES_LENGTH,
        EDGES_LENGTH,
        FEW_EDGES_LENGTH,
        ROOTS_START,
        TABLE_SPANS_LENGTH,
        SLOTS_LENGTH,
        KEYS_LENGTH,
        FEW_KEYS_LENGTH,
        V_LINE_LENGTH,
        BROUGHT_LENGTH,
        M_LINE_LENGTH,
        MEMBER_LENGTH,
        T_LINE_LENGTH,
        END_LINE_LENGTH,
        COMPLETED_LENGTH,
        MOST_PICKS,
        L_LINE_LENGTH,
        P_LINE_LENGTH,
        LOG_LENGTH,
        REPLAY_LENGTH,
    ]
}

pub fn word_numbers() -> [u16; 7]
    ensures { result ≡ most_exponent ∷ most_degree ∷ most_weight ∷ most_variables ∷ most_components ∷ most_elements ∷ most_vectors ∷ [] }
{
    [
        MOST_EXPONENT,
        MOST_DEGREE,
        MOST_WEIGHT,
        MOST_VARIABLES,
        MOST_COMPONENTS,
        MOST_ELEMENTS,
        MOST_VECTORS_U16,
    ]
}

pub fn long_numbers() -> [u64; 1]
    ensures { result ≡ second_base ∷ [] }
{
    [SECOND_BASE]
}

// ## Words

// A word as a place in a buffer.
pub fn place(x: u16) -> usize
    ensures { (result ≡ x) × (result < 65536) }
{
    x as usize
}

// A word as a number with room for sums and products of words.
pub fn wider(x: u16) -> u32
    ensures { (result ≡ x) × (result ≤ 65535) }
{
    x as u32
}

// A word as a part of a number of 64 bits.
fn part(x: u16) -> u64
    ensures { (result ≡ x) × (result < 65536) }
{
    x as u64
}

// The number that stands in four words from word at on, the lowest first. The compiler makes one load of it.
pub fn long(s: &[u16], at: usize) -> u64
    requires { at + 4 ≤ length s.now }
    ensures { result ≡ long_at s.now at }
{
    ((part(s[at + 3]) * 65536 + part(s[at + 2])) * 65536 + part(s[at + 1])) * 65536 + part(s[at])
}

// That every word is below 65,536, which its type says, as a fact: a loop that the compiler leaves out, since nothing comes of it.
pub fn know(s: &[u16])
    ensures { SixteenBits s.now }
{
    for i in 0..s.len() {
        part(s[i]);
    }
}

// A word in a range, both ends included.
pub fn between(a: u16, x: u16, b: u16) -> bool
    ensures { result ≡ between_definition a x b }
{
    a <= x && x <= b
}
